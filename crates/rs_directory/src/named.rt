//! Finding the entries of pages in the bytes of a directory, without memory.

ghost use Rattle.std.specs.Prelude.{◌≡◌, ◌<◌, List, length, get_or, nat_eq, if◌then◌else◌, IfSome, IfNone};
ghost use Rattle.rs_page.specs.declared.place.PageRef.{PageRef};
ghost use Rattle.rs_directory.specs.Directory.{AreEntries, BeginsWith, Names};

use rs_extent::Extent;
use rs_page::PageRef;
use rs_record::fields::u32_at;

/// Returns the entries of the pages that a directory of a version names: the last part of its bytes. If the bytes are
/// no lawful directory, the result may be any bytes.
pub fn entries_of(version: u8, bytes: &[u8]) -> &[u8]
    ensures { (pages : List PageRef)
        → Names version bytes.now pages
        → AreEntries result.now pages }
{
    let (_, entries) = bytes.split_at((others(version) + base_length(bytes)).min(bytes.len()));
    entries
}

/// Returns the number of bytes before the entries, without the base: version 1 has two numbers fewer.
fn others(version: u8) -> usize
    ensures { result ≡ (if nat_eq version 1 then 47 else 63) }
{
    if version == 1 { 47 } else { 63 }
}

/// Returns the length of the base, which is in byte 2.
fn base_length(bytes: &[u8]) -> usize
    ensures value { result ≡ get_or bytes.now 2 0 }
    ensures bound { result < 256 }
{
    if bytes.len() > 2 {
        bytes[2] as usize
    } else {
        0
    }
}

/// Returns the page whose entry the bytes begin with, and the bytes after it. `None` if the bytes are fewer than an
/// entry has.
#[tactic(auto, unfolding(crate::specs::Reading::page_entry_at))]
pub fn entry_at(bytes: &[u8]) -> Option<(PageRef, &[u8])>
    ensures some { IfSome result (λ x. BeginsWith bytes.now x.0 x.1.now) }
    ensures none { IfNone result (length bytes.now < 44) }
{
    let (first, rest) = u32_at(bytes)?;
    let (blocks, rest) = u32_at(rest)?;
    let (length, rest) = u32_at(rest)?;
    let (sha256, rest) = rest.split_first_chunk::<32>()?;
    let entry = PageRef {
        extent: Extent { first, blocks },
        length,
        sha256: *sha256,
    };
    Some((entry, rest))
}
