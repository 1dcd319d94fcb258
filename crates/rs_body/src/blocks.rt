//! The number of blocks that a body needs, and the tests of an extent for them.
ghost use Rattle.std.specs.Prelude.{◌≡◌, ◌↔◌, ◌*◌, IsTrue};
ghost use Rattle.rs_extent.specs.Blocks.{block_size};
ghost use Rattle.rs_extent.specs.Extents.{IsOnDisk};
ghost use Rattle.rs_body.specs.Blocks.{blocks_of, IsSized};

use rs_extent::{BLOCK_SIZE, Extent};

/// Returns the number of blocks of [`BLOCK_SIZE`] bytes that a body of `length` bytes needs: at most 8,388,608.
pub fn blocks_for(length: u32) -> u32
    ensures { result ≡ blocks_of length }
{
    length.div_ceil(BLOCK_SIZE as u32)
}

/// Returns whether `extent` has exactly the blocks that a body of `length` bytes needs, and begins at block 0 if it
/// needs no block.
pub fn is_sized(extent: Extent, length: u32) -> bool
    ensures { IsTrue result ↔ IsSized extent length }
{
    extent.blocks == blocks_for(length) && (length != 0 || extent.first == 0)
}

/// Returns whether all blocks of `extent` lie on a disk of `size` bytes, as [`write_body`](crate::write_body) and
/// [`read_body`](crate::read_body) require. An empty extent lies on every disk.
pub fn is_on_disk(extent: Extent, size: u64) -> bool
    ensures { IsTrue result ↔ IsOnDisk extent size }
{
    extent.blocks == 0 || offset_of(extent) + extent.blocks as u64 * BLOCK_SIZE as u64 <= size
}

/// Returns the offset in bytes at which an extent begins.
pub(crate) fn offset_of(extent: Extent) -> u64
    ensures { result ≡ block_size * extent.first }
{
    extent.first as u64 * BLOCK_SIZE as u64
}
