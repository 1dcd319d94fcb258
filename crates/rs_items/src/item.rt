//! The item that a line writes.

ghost use Rattle.std.specs.Prelude.{◌≡◌, ◌∷◌, ◌⊎◌, codes, IfOk, IfErr};
ghost use Rattle.rs_items.specs.Fields.{fields as fields_of};
ghost use Rattle.rs_items.specs.Items.{item_of_line, item_of_fields, put_item as put, delete_item as delete, bytes_of};

use crate::fields::split_field;
use hex::FromHexError;
use rs_model::{Body, Item};
use rs_record::{MediaType, Name, ValueFault};
use std::alloc::{AllocError, Global};
use thiserror::Error;

/// The reason why a line is no item.
#[derive(Clone, Copy, Debug, PartialEq, Eq, Error)]
pub enum ItemFault {
    /// The line is neither `put NAME HEX TYPE` nor `delete NAME`.
    #[error("the line has no known form")]
    BadLine,
    /// The field is no lawful name.
    #[error("the name is not lawful")]
    BadName,
    /// The field is neither `-` nor pairs of hexadecimal digits.
    #[error("the field is no hexadecimal text")]
    BadHex,
    /// The field is no lawful media type.
    #[error("the media type is not lawful")]
    BadType,
    /// The memory for the name, the type or the bytes was refused.
    #[error("out of memory")]
    NoMemory,
}

impl ItemFault {
    ghost use Rattle.rs_items.specs.Items.{fault_word};

    /// Returns the word for a fault in a script and over HTTP: the name of its variant.
    pub fn word(self) -> &'static str
        ensures { result.now ≡ fault_word self }
    {
        match self {
            ItemFault::BadLine => "BadLine",
            ItemFault::BadName => "BadName",
            ItemFault::BadHex => "BadHex",
            ItemFault::BadType => "BadType",
            ItemFault::NoMemory => "NoMemory",
        }
    }
}

impl From<AllocError> for ItemFault {
    ghost use Rattle.rs_items.specs.declared.item.ItemFault.TheVariants.{NoMemory};

    ghost from_gives = { λ _ fault. fault ≡ NoMemory };

    fn from(_: AllocError) -> ItemFault {
        ItemFault::NoMemory
    }
}

/// Returns the item of `line`, which comes without its end: `put NAME HEX TYPE` or `delete NAME`. Single spaces
/// separate the fields, and TYPE is the rest of the line.
///
/// # Errors
///
/// - [`ItemFault::BadLine`]: the line has neither form.
/// - [`ItemFault::BadName`], [`ItemFault::BadHex`], [`ItemFault::BadType`]: the first field that is not lawful.
/// - [`ItemFault::NoMemory`]: the memory for the name, the type or the bytes was refused.
pub fn item_of(alloc: Global, line: &[u8]) -> Result<Item, ItemFault>
    ensures { (result ≡ item_of_line line.now) ⊎ (result ≡ Err ItemFault.NoMemory) }
{
    let Some((word, arguments)) = split_field(line) else {
        return Err(ItemFault::BadLine);
    };
    if word == b"put".as_slice() {
        return put_fields(alloc, arguments);
    }
    if word == b"delete".as_slice() {
        return delete_field(alloc, arguments);
    }
    Err(ItemFault::BadLine)
}

/// Returns the item of a `delete`, from the fields after that word: NAME.
fn delete_field(alloc: Global, fields: &[u8]) -> Result<Item, ItemFault>
    ensures { (result ≡ item_of_fields (codes "delete" ∷ fields_of 2 fields.now))
        ⊎ (result ≡ Err ItemFault.NoMemory) }
{
    match split_field(fields) {
        None => delete_item(alloc, fields),
        Some(_) => Err(ItemFault::BadLine),
    }
}

/// Returns the delete of this name.
fn delete_item(alloc: Global, name: &[u8]) -> Result<Item, ItemFault>
    ensures { (result ≡ delete name.now) ⊎ (result ≡ Err ItemFault.NoMemory) }
{
    match Name::new(alloc, name) {
        Ok(name) => Ok(Item::Delete { name }),
        Err(ValueFault::Malformed) => Err(ItemFault::BadName),
        Err(ValueFault::NoMemory) => Err(ItemFault::NoMemory),
    }
}

/// Returns the item of a `put`, from the fields after that word: NAME, HEX and TYPE, which is the rest.
fn put_fields(alloc: Global, fields: &[u8]) -> Result<Item, ItemFault>
    ensures { (result ≡ item_of_fields (codes "put" ∷ fields_of 2 fields.now))
        ⊎ (result ≡ Err ItemFault.NoMemory) }
{
    let Some((name, rest)) = split_field(fields) else {
        return Err(ItemFault::BadLine);
    };
    match split_field(rest) {
        Some((hex, kind)) => put_item(alloc, name, hex, kind),
        None => Err(ItemFault::BadLine),
    }
}

/// Returns the put of these fields.
fn put_item(alloc: Global, name: &[u8], hex: &[u8], kind: &[u8]) -> Result<Item, ItemFault>
    ensures { (result ≡ put name.now hex.now kind.now) ⊎ (result ≡ Err ItemFault.NoMemory) }
{
    let name = match Name::new(alloc, name) {
        Ok(name) => name,
        Err(ValueFault::Malformed) => return Err(ItemFault::BadName),
        Err(ValueFault::NoMemory) => return Err(ItemFault::NoMemory),
    };
    let bytes = decoded(alloc, hex)?;
    match MediaType::new(alloc, kind) {
        Ok(kind) => {
            let bytes = Body::new(bytes);
            Ok(Item::Put { name, kind, bytes })
        }
        Err(ValueFault::Malformed) => Err(ItemFault::BadType),
        Err(ValueFault::NoMemory) => Err(ItemFault::NoMemory),
    }
}

/// Returns the bytes of a HEX, in one buffer of their number.
fn decoded(alloc: Global, hex: &[u8]) -> Result<Vec<u8>, ItemFault>
    ensures ok { IfOk result (λ bytes. bytes_of hex.now ≡ Some bytes.items) }
    ensures err { IfErr result (λ fault. (fault ≡ ItemFault.NoMemory)
        ⊎ ((fault ≡ ItemFault.BadHex) × (bytes_of hex.now ≡ None))) }
{
    if hex.is_empty() {
        return Err(ItemFault::BadHex);
    }
    if hex == b"-".as_slice() {
        return Ok(Vec::new(alloc));
    }
    match hex::decode(alloc, hex) {
        Ok(bytes) => Ok(bytes),
        Err(FromHexError::OutOfMemory) => Err(ItemFault::NoMemory),
        Err(_) => Err(ItemFault::BadHex),
    }
}
