//! Fields of the formats of the disk, read off the front of some bytes and appended to others.
//!
//! A reader gives the field and the bytes after it, or `None` if the bytes do not begin with one. Numbers are big
//! endian.

ghost use Rattle.std.specs.Prelude.{◌≡◌, ◌<◌, ◌≤◌, ◌+◌, ◌++◌, vec_len, vec_capacity, IsTrue, OnOk, OnErr, IfSome, length, map};
ghost use Rattle.std.specs.Int.{w16, w32, w64};
ghost use Rattle.std.specs.List.{concat};
ghost use Rattle.rs_record.specs.Name.{is_name};
ghost use Rattle.rs_record.specs.MediaType.{is_media_type};
ghost use Rattle.rs_record.specs.Borrowed.{facts_seen};
ghost use Rattle.rs_record.specs.Reading.{IsSeenAs, number_in, counted_at as counted_read, text_at, facts_at as facts_read};

use crate::borrowed::FactsFields;
use crate::{MediaType, Name};
use rs_fixity::Digests;
use std::alloc::AllocError;

/// Reads a number of 2 bytes.
pub fn u16_at(bytes: &[u8]) -> Option<(u16, &[u8])>
    ensures { IsSeenAs (λ x. (x.0, x.1.now)) result (number_in w16 bytes.now) }
{
    let (number, rest) = bytes.split_first_chunk::<2>()?;
    Some((u16::from_be_bytes(*number), rest))
}

/// Reads a number of 4 bytes.
pub fn u32_at(bytes: &[u8]) -> Option<(u32, &[u8])>
    ensures { IsSeenAs (λ x. (x.0, x.1.now)) result (number_in w32 bytes.now) }
{
    let (number, rest) = bytes.split_first_chunk::<4>()?;
    Some((u32::from_be_bytes(*number), rest))
}

/// Reads a number of 8 bytes.
pub fn u64_at(bytes: &[u8]) -> Option<(u64, &[u8])>
    ensures { IsSeenAs (λ x. (x.0, x.1.now)) result (number_in w64 bytes.now) }
{
    let (number, rest) = bytes.split_first_chunk::<8>()?;
    Some((u64::from_be_bytes(*number), rest))
}

/// Reads a byte of length, and that many bytes: 0 to 255.
#[tactic(auto, unfolding(crate::specs::Reading::counted_at))]
pub fn counted_at(bytes: &[u8]) -> Option<(&[u8], &[u8])>
    ensures { IsSeenAs (λ x. (x.0.now, x.1.now)) result (counted_read bytes.now) }
{
    let (length, rest) = bytes.split_first()?;
    rest.split_at_checked(*length as usize)
}

/// Reads a byte of length, and a lawful name of that length.
#[tactic(auto, unfolding(crate::specs::Reading::text_at))]
pub(crate) fn name_at(bytes: &[u8]) -> Option<(&[u8], &[u8])>
    ensures read { IsSeenAs (λ x. (x.0.now, x.1.now)) result (text_at is_name bytes.now) }
    ensures lawful { IfSome result (λ x. IsTrue (is_name x.0.now)) }
{
    let (name, rest) = counted_at(bytes)?;
    if !Name::is_lawful(name) {
        return None;
    }
    Some((name, rest))
}

/// Reads a byte of length, and a lawful media type of that length.
#[tactic(auto, unfolding(crate::specs::Reading::text_at))]
fn media_type_at(bytes: &[u8]) -> Option<(&[u8], &[u8])>
    ensures read { IsSeenAs (λ x. (x.0.now, x.1.now)) result (text_at is_media_type bytes.now) }
    ensures lawful { IfSome result (λ x. IsTrue (is_media_type x.0.now)) }
{
    let (kind, rest) = counted_at(bytes)?;
    if !MediaType::is_lawful(kind) {
        return None;
    }
    Some((kind, rest))
}

/// Reads the facts of a body.
#[tactic(auto, unfolding(crate::specs::Reading::facts_at))]
pub(crate) fn facts_at(bytes: &[u8]) -> Option<(FactsFields<'_>, &[u8])>
    ensures read { IsSeenAs (λ x. (facts_seen x.0, x.1.now)) result (facts_read bytes.now) }
    ensures lawful { IfSome result (λ x. IsTrue (is_media_type x.0.kind.now)) }
{
    let (kind, rest) = media_type_at(bytes)?;
    let (length, rest) = u32_at(rest)?;
    let (md5, rest) = rest.split_first_chunk::<16>()?;
    let (sha256, rest) = rest.split_first_chunk::<32>()?;
    let digests = Digests {
        md5: *md5,
        sha256: *sha256,
    };
    let facts = FactsFields {
        kind,
        length,
        digests,
    };
    Some((facts, rest))
}

/// Returns the number of bytes of the format of facts with this media type and these digests: 56 to 153.
pub(crate) fn facts_size(kind: &MediaType, digests: Digests) -> usize
    ensures size { result ≡ 5 + length kind.now + length digests.md5 + length digests.sha256 }
    ensures bound { result ≤ 153 }
{
    5 + kind.bytes().len() + digests.md5.len() + digests.sha256.len()
}

/// Appends these pieces, which have `size` bytes in all. If memory is refused, it appends no byte.
pub(crate) fn append(size: usize, pieces: &[&[u8]], out: &mut Vec<u8>) -> Result<(), AllocError>
    requires { size ≡ length (concat (map (λ piece. piece.now) pieces.now)) }
    ensures ok { OnOk result (out.new.items
        ≡ out.old.items ++ concat (map (λ piece. piece.now) pieces.now)) }
    ensures err { OnErr result (out.new.items ≡ out.old.items) }
    ensures full { OnErr result (vec_capacity out.old < vec_len out.old + size) }
{
    out.reserve(size)?;
    for piece in pieces {
        out.extend_from_slice(piece).unwrap();
    }
    Ok(())
}
