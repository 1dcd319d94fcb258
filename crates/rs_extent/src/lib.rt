//! Runs of blocks, and the set of the blocks of a disk that are used. [`laws`] states the laws that follow from the
//! definitions alone.
#![tactic(auto)]

pub mod laws;
mod used;
mod words;

pub use used::Used;

/// The number of bytes of a block of a disk: block `n` begins at byte `n * BLOCK_SIZE`.
pub const BLOCK_SIZE: usize = 512;

/// A run of blocks of a disk: `blocks` blocks from block `first` on, counted from 0.
///
/// An extent of 0 blocks is empty, with any `first`.
#[derive(Clone, Copy, Debug, PartialEq, Eq, PartialOrd, Ord)]
pub struct Extent {
    /// The number of the first block.
    pub first: u32,
    /// The number of blocks.
    pub blocks: u32,
}
