//! The base of a source's URIs.

ghost use Rattle.std.specs.Prelude.{◌≡◌, ◌↔◌, false, IfOk, OnOk, IsErrOf, IsTrue};
ghost use Rattle.std.specs.List.{list_all};
ghost use Rattle.rs_record.specs.Base.{is_base, is_base_char as base_byte, has_scheme as scheme_first};

use crate::bytes::{is_alphanumeric, is_one_of};
use crate::fault::ValueFault;
use std::alloc::{AllocError, Global};
use std::marker::Model;

/// The prefix of the URIs of a source: 8 to 128 bytes, seen as the list of its bytes.
///
/// It is `http://` or `https://` and one or more letters, digits or bytes of `.:/_~-`, and does
/// not end in `/`. The URI of a resource is the base, `/resource/` and the name (RFC 3986).
#[derive(Debug, Drop)]
pub struct Base {
    bytes: Vec<u8>,
}

impl Model for Base {
    ghost use Rattle.std.specs.Prelude.{ℕ, List, IsTrue};
    ghost use Rattle.rs_record.specs.Base.{is_base};

    ghost Value = { List ℕ };

    ghost view = { λ n. n.bytes.items };

    ghost invariant = { λ n. IsTrue (is_base n.bytes.items) };
}

impl Base {
    /// Returns the base of these bytes, copied into memory of its own.
    ///
    /// # Errors
    ///
    /// `Malformed` exactly if the bytes are no lawful base, without asking for memory; `NoMemory` if the memory for the
    /// copy was refused.
    pub fn new(alloc: Global, bytes: &[u8]) -> Result<Base, ValueFault>
        ensures value { IfOk result (λ base. base ≡ bytes.now) }
        ensures lawful { OnOk result (IsTrue (is_base bytes.now)) }
        ensures malformed { IsErrOf result ValueFault.Malformed ↔ (is_base bytes.now ≡ false) }
    {
        if !is_lawful(bytes) {
            return Err(ValueFault::Malformed);
        }
        Base::from_lawful(alloc, bytes).map_err(|_| ValueFault::NoMemory)
    }

    /// Returns the bytes of the base, 8 to 128.
    pub fn bytes(&self) -> &[u8]
        ensures value { result.now ≡ self.now }
        ensures lawful { IsTrue (is_base self.now) }
    {
        self.bytes.as_slice()
    }

    /// Returns a copy of the base.
    ///
    /// # Errors
    ///
    /// An error if the memory for the copy was refused.
    pub fn copy(&self, alloc: Global) -> Result<Base, AllocError>
        ensures { IfOk result (λ base. base ≡ self.now) }
    {
        Base::from_lawful(alloc, self.bytes())
    }

    /// Returns the base of lawful bytes.
    fn from_lawful(alloc: Global, bytes: &[u8]) -> Result<Base, AllocError>
        requires { IsTrue (is_base bytes.now) }
        ensures { IfOk result (λ base. base ≡ bytes.now) }
    {
        Ok(Base {
            bytes: Vec::from_slice(alloc, bytes)?,
        })
    }
}

/// Returns whether the bytes are a base.
fn is_lawful(bytes: &[u8]) -> bool
    ensures { result ≡ is_base bytes.now }
{
    8 <= bytes.len()
        && bytes.len() <= 128
        && (has_scheme(b"http://", bytes) || has_scheme(b"https://", bytes))
        && !bytes.ends_with(b"/")
}

/// Returns whether the bytes are the scheme and then one or more bytes of a base.
fn has_scheme(scheme: &[u8], bytes: &[u8]) -> bool
    ensures { result ≡ scheme_first scheme.now bytes.now }
{
    match bytes.strip_prefix(scheme) {
        Some(rest) => !rest.is_empty() && are_base_chars(rest),
        None => false,
    }
}

/// Returns whether all bytes may occur in a base after its scheme.
fn are_base_chars(bytes: &[u8]) -> bool
    ensures { result ≡ list_all base_byte bytes.now }
{
    bytes.iter().all(|byte| is_base_char(*byte))
}

/// Returns whether the byte may occur in a base after its scheme.
fn is_base_char(byte: u8) -> bool
    ensures { result ≡ base_byte byte }
{
    is_alphanumeric(byte) || is_one_of(b".:/_~-", byte)
}
