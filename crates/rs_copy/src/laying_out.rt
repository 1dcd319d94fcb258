//! The layout of a copy.

ghost use Rattle.std.specs.Prelude.{◌≡◌, ◌≤◌, IfOk, IfErr, IsErrOf};
ghost use Rattle.rs_image.specs.Reach.{blocks_of_disk};
ghost use Rattle.rs_copy.specs.declared.faults.CopyFault.{CopyFault};
ghost use Rattle.rs_copy.specs.Laying.{IsLaidOut, LacksCopyRoom};
ghost use Rattle.rs_copy.specs.Copying.{IsOfLaying};

use crate::CopyFault;
use crate::listing::copied_lists;
use crate::placing::{place_bodies, place_lists};
use rs_extent::{BLOCK_SIZE, Extent, Used};
use rs_image::Contents;
use std::alloc::Global;

// The most blocks that a source uses of its disk.
const MOST_BLOCKS: u64 = 8_388_608;

/// The place of everything that a copy writes.
#[derive(Drop)]
pub(crate) struct Layout {
    /// The lists of the copy. Its records have the new extents, and every page has a place.
    pub contents: Contents,
    /// The blocks of the directory.
    pub directory: Extent,
    /// The blocks of the slots and of everything that the copy writes.
    pub used: Used,
}

/// Lays out a copy of these lists on a disk of `size` bytes. Every part takes the lowest run of free blocks of its
/// size, in this order: the bodies by their names, the pages of the catalogue, of the changes and of the publication,
/// the directory.
///
/// # Errors
///
/// - [`CopyFault::Full`] if a part has no such run.
/// - [`CopyFault::NoMemory`] if memory runs out.
pub(crate) fn lay_out(alloc: Global, size: u64, old: &Contents) -> Result<Layout, CopyFault>
    requires { 1024 ≤ size }
    ensures laid_out { IfOk result
        (λ layout. IsLaidOut size old.now layout.contents layout.directory layout.used) }
    ensures full { IsErrOf result CopyFault.Full → LacksCopyRoom size old.now }
    ensures others { IfErr result IsOfLaying }
{
    let mut used = Used::new(alloc, block_count(size))?;
    let held = place_bodies(alloc, &old.catalogue, &mut used)?;
    let mut contents = copied_lists(alloc, old, &held)?;
    let directory = place_lists(&mut used, &mut contents)?;
    Ok(Layout {
        contents,
        directory,
        used,
    })
}

/// Returns the number of whole blocks that a source uses of a disk of `size` bytes, at most 8,388,608.
fn block_count(size: u64) -> u32
    ensures { result ≡ blocks_of_disk size }
{
    (size / BLOCK_SIZE as u64).min(MOST_BLOCKS) as u32
}
