//! Names of resources.

ghost use Rattle.std.specs.Prelude.{◌≡◌, ◌↔◌, false, IfOk, OnOk, IsErrOf, IsTrue};
ghost use Rattle.std.specs.Ordering.{nat_cmp};
ghost use Rattle.std.specs.Cmp.Lexicographic.{slice_cmp};
ghost use Rattle.std.specs.List.{list_all};
ghost use Rattle.rs_record.specs.Name.{is_name, is_segment as segment_bytes, segments, are_pchars as pchar_bytes, is_plain as plain_byte, two_hex as two_hex_bytes};

use crate::bytes::{is_alphanumeric, is_hex, is_one_of};
use crate::fault::ValueFault;
use smallvec::SmallVec;
use std::alloc::{AllocError, Global};
use std::cmp::Ordering;
use std::marker::Model;

/// The name of a resource: 1 to 240 bytes, seen as the list of its bytes.
///
/// A name is one or more segments joined by `/`, as in the path of a URI (RFC 3986, section 3.3).
/// A segment is one or more `pchar`: a letter, a digit, one of `-._~!$&'()*+,;=:@`, or `%` and
/// two hexadecimal digits. No segment is empty, `.` or `..`. Names are compared byte for byte:
/// `%2E` is no dot, and `%41` is another name than `A`.
///
/// A name of at most 16 bytes lies in the value, and a longer one in memory of its own.
#[derive(Debug, Drop)]
pub struct Name {
    bytes: SmallVec<u8, 16>,
}

impl Model for Name {
    ghost use Rattle.std.specs.Prelude.{ℕ, List, IsTrue};
    ghost use Rattle.rs_record.specs.Name.{is_name};

    ghost Value = { List ℕ };

    ghost view = { λ n. n.bytes.items };

    ghost invariant = { λ n. IsTrue (is_name n.bytes.items) };
}

impl Name {
    /// Returns the name of these bytes, copied.
    ///
    /// # Errors
    ///
    /// `Malformed` exactly if the bytes are no lawful name, without asking for memory; `NoMemory` if the memory for the
    /// copy was refused.
    pub fn new(alloc: Global, bytes: &[u8]) -> Result<Name, ValueFault>
        ensures value { IfOk result (λ name. name ≡ bytes.now) }
        ensures lawful { OnOk result (IsTrue (is_name bytes.now)) }
        ensures malformed { IsErrOf result ValueFault.Malformed ↔ (is_name bytes.now ≡ false) }
    {
        if !Name::is_lawful(bytes) {
            return Err(ValueFault::Malformed);
        }
        Name::from_lawful(alloc, bytes).map_err(|_| ValueFault::NoMemory)
    }

    /// Returns whether the bytes are a lawful name.
    pub fn is_lawful(bytes: &[u8]) -> bool
        ensures { result ≡ is_name bytes.now }
    {
        bytes.len() <= 240 && are_segments(bytes)
    }

    /// Returns the bytes of the name, 1 to 240.
    pub fn bytes(&self) -> &[u8]
        ensures value { result.now ≡ self.now }
        ensures lawful { IsTrue (is_name self.now) }
    {
        self.bytes.as_slice()
    }

    /// Compares the names byte by byte. A name sorts before every longer name that begins with it.
    pub fn compare(&self, other: &Name) -> Ordering
        ensures { result ≡ slice_cmp nat_cmp self.now other.now }
    {
        self.bytes().cmp(other.bytes())
    }

    /// Returns a copy of the name.
    ///
    /// # Errors
    ///
    /// An error if the memory for the copy was refused.
    pub fn copy(&self, alloc: Global) -> Result<Name, AllocError>
        ensures { IfOk result (λ name. name ≡ self.now) }
    {
        Name::from_lawful(alloc, self.bytes())
    }

    /// Returns the name of lawful bytes, copied.
    ///
    /// # Errors
    ///
    /// An error if the memory for the copy was refused.
    pub fn from_lawful(alloc: Global, bytes: &[u8]) -> Result<Name, AllocError>
        requires { IsTrue (is_name bytes.now) }
        ensures { IfOk result (λ name. name ≡ bytes.now) }
    {
        Ok(Name {
            bytes: SmallVec::from_slice(alloc, bytes)?,
        })
    }
}

/// Returns whether every part between the `/` is a segment.
fn are_segments(bytes: &[u8]) -> bool
    ensures { result ≡ list_all segment_bytes (segments bytes.now) }
{
    bytes
        .split(|byte| *byte == b'/')
        .all(|part| is_segment(part))
}

/// Returns whether the bytes are a segment.
fn is_segment(bytes: &[u8]) -> bool
    ensures { result ≡ segment_bytes bytes.now }
{
    are_pchars(bytes) && !matches!(bytes, [] | [b'.'] | [b'.', b'.'])
}

/// Returns whether a segment may have all the bytes, a `%` only before two hexadecimal digits.
fn are_pchars(bytes: &[u8]) -> bool
    ensures { result ≡ pchar_bytes bytes.now }
{
    for (i, byte) in bytes.iter().enumerate() {
        if !is_plain(*byte) && !(*byte == b'%' && two_hex(&bytes[i + 1..])) {
            return false;
        }
    }
    true
}

/// Returns whether the bytes begin with two hexadecimal digits.
fn two_hex(bytes: &[u8]) -> bool
    ensures { result ≡ two_hex_bytes bytes.now }
{
    match bytes {
        [first, second, ..] => is_hex(*first) && is_hex(*second),
        _ => false,
    }
}

/// Returns whether a segment may have the byte as it is, other than by `%`.
fn is_plain(byte: u8) -> bool
    ensures { result ≡ plain_byte byte }
{
    is_alphanumeric(byte) || is_one_of(b"-._~!$&'()*+,;=:@", byte)
}
