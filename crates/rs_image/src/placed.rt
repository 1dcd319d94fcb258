//! Checking the places of a directory and of its pages, before they get memory.

ghost use Rattle.std.specs.Prelude.{◌↔◌, List, All, IsTrue};
ghost use Rattle.rs_page.specs.declared.place.PageRef.{PageRef};
ghost use Rattle.rs_directory.specs.Directory.{AreEntries, Names};
ghost use Rattle.rs_image.specs.Loading.{IsInside, IsPlaced, IsPagePlaced};

use crate::used::block_count;
use rs_body::is_sized;
use rs_directory::{entries_of, entry_at};
use rs_extent::Extent;

/// Returns whether an extent has exactly the blocks of `length` bytes, all of them after the slots,
/// among the usable blocks of a disk of `size` bytes.
pub(crate) fn is_placed(extent: Extent, length: u32, size: u64) -> bool
    ensures { IsTrue result ↔ IsPlaced size extent length }
{
    is_sized(extent, length) && is_inside(extent, size)
}

/// Returns whether all blocks of an extent are after the slots, among the usable blocks of a disk
/// of `size` bytes.
fn is_inside(extent: Extent, size: u64) -> bool
    ensures { IsTrue result ↔ IsInside size extent }
{
    let end = extent.first as u64 + extent.blocks as u64;
    extent.blocks == 0 || 2 <= extent.first && end <= block_count(size) as u64
}

/// Returns whether all pages that a directory of a version names are placed like this. It finds
/// them in the directory's bytes, without memory. Where the bytes are no lawful directory, it may
/// answer either.
pub(crate) fn names_placed(version: u8, bytes: &[u8], size: u64) -> bool
    ensures { (pages : List PageRef)
        → Names version bytes.now pages
        → IsTrue result ↔ All (IsPagePlaced size) pages }
{
    are_placed(entries_of(version, bytes), size)
}

/// Returns whether all pages of these entries are placed like this.
fn are_placed(entries: &[u8], size: u64) -> bool
    ensures { (pages : List PageRef)
        → AreEntries entries.now pages
        → IsTrue result ↔ All (IsPagePlaced size) pages }
{
    let mut rest = entries;
    while let Some((page, after)) = entry_at(rest) {
        if !is_placed(page.extent, page.length, size) {
            return false;
        }
        rest = after;
    }
    true
}
