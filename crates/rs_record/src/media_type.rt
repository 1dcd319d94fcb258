//! Media types.

ghost use Rattle.std.specs.Prelude.{◌≡◌, ◌↔◌, false, IfOk, OnOk, IsErrOf, IsTrue};
ghost use Rattle.std.specs.List.{list_all};
ghost use Rattle.rs_record.specs.Bytes.{is_between};
ghost use Rattle.rs_record.specs.MediaType.{is_media_type, is_tchar as token_byte, begins_token as token_first, begins_subtype as subtype_first, after_token as token_rest};

use crate::bytes::{is_alphanumeric, is_one_of};
use crate::fault::ValueFault;
use smallvec::SmallVec;
use std::alloc::{AllocError, Global};
use std::marker::Model;

/// A media type with its parameters: 3 to 100 bytes, seen as the list of its bytes.
///
/// It begins with a token, `/` and a token (RFC 9110, sections 8.3.1 and 5.6.2), all bytes are printable ASCII (32 to
/// 126), and the last byte is no space. The bytes after the second token are kept as given.
///
/// A media type of at most 24 bytes, as `application/octet-stream`, lies in the value, and a longer one in memory of
/// its own.
#[derive(Debug, Drop)]
pub struct MediaType {
    bytes: SmallVec<u8, 24>,
}

impl Model for MediaType {
    ghost use Rattle.std.specs.Prelude.{ℕ, List, IsTrue};
    ghost use Rattle.rs_record.specs.MediaType.{is_media_type};

    ghost Value = { List ℕ };

    ghost view = { λ n. n.bytes.items };

    ghost invariant = { λ n. IsTrue (is_media_type n.bytes.items) };
}

impl MediaType {
    /// Returns the media type of these bytes, copied.
    ///
    /// # Errors
    ///
    /// `Malformed` exactly if the bytes are no lawful media type, without asking for memory; `NoMemory` if the memory
    /// for the copy was refused.
    pub fn new(alloc: Global, bytes: &[u8]) -> Result<MediaType, ValueFault>
        ensures value { IfOk result (λ kind. kind ≡ bytes.now) }
        ensures lawful { OnOk result (IsTrue (is_media_type bytes.now)) }
        ensures malformed { IsErrOf result ValueFault.Malformed
            ↔ (is_media_type bytes.now ≡ false) }
    {
        if !MediaType::is_lawful(bytes) {
            return Err(ValueFault::Malformed);
        }
        MediaType::from_lawful(alloc, bytes).map_err(|_| ValueFault::NoMemory)
    }

    /// Returns whether the bytes are a lawful media type.
    pub fn is_lawful(bytes: &[u8]) -> bool
        ensures { result ≡ is_media_type bytes.now }
    {
        3 <= bytes.len()
            && bytes.len() <= 100
            && are_printable(bytes)
            && begins_token(bytes)
            && begins_subtype(after_token(bytes))
            && !bytes.ends_with(b" ")
    }

    /// Returns the bytes of the media type, 3 to 100.
    pub fn bytes(&self) -> &[u8]
        ensures value { result.now ≡ self.now }
        ensures lawful { IsTrue (is_media_type self.now) }
    {
        self.bytes.as_slice()
    }

    /// Returns a copy of the media type.
    ///
    /// # Errors
    ///
    /// An error if the memory for the copy was refused.
    pub fn copy(&self, alloc: Global) -> Result<MediaType, AllocError>
        ensures { IfOk result (λ kind. kind ≡ self.now) }
    {
        MediaType::from_lawful(alloc, self.bytes())
    }

    /// Returns the media type of lawful bytes, copied.
    ///
    /// # Errors
    ///
    /// An error if the memory for the copy was refused.
    pub fn from_lawful(alloc: Global, bytes: &[u8]) -> Result<MediaType, AllocError>
        requires { IsTrue (is_media_type bytes.now) }
        ensures { IfOk result (λ kind. kind ≡ bytes.now) }
    {
        Ok(MediaType {
            bytes: SmallVec::from_slice(alloc, bytes)?,
        })
    }
}

/// Returns whether all bytes are printable ASCII.
fn are_printable(bytes: &[u8]) -> bool
    ensures { result ≡ list_all (is_between 32 126) bytes.now }
{
    bytes.iter().all(|byte| 32 <= *byte && *byte <= 126)
}

/// Returns whether the bytes begin with a token.
fn begins_token(bytes: &[u8]) -> bool
    ensures { result ≡ token_first bytes.now }
{
    match bytes {
        [first, ..] => is_tchar(*first),
        [] => false,
    }
}

/// Returns whether the bytes begin with `/` and a token.
fn begins_subtype(bytes: &[u8]) -> bool
    ensures { result ≡ subtype_first bytes.now }
{
    match bytes {
        [b'/', rest @ ..] => begins_token(rest),
        _ => false,
    }
}

/// Returns the rest after the bytes of a token.
fn after_token(bytes: &[u8]) -> &[u8]
    ensures { result.now ≡ token_rest bytes.now }
{
    for (i, byte) in bytes.iter().enumerate() {
        if !is_tchar(*byte) {
            return &bytes[i..];
        }
    }
    &[]
}

/// Returns whether a token may have the byte.
fn is_tchar(byte: u8) -> bool
    ensures { result ≡ token_byte byte }
{
    is_alphanumeric(byte) || is_one_of(b"!#$%&'*+-.^_`|~", byte)
}
