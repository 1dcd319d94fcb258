//! Bodies in extents of a disk.
//!
//! A body is bytes of a known length and SHA-256. [`write_body`] puts one at the front of an extent, and
//! [`write_piece`] does so piece by piece. [`read_body`] reads it back, or finds it damaged, and [`read_in_pieces`]
//! does so piece by piece. [`read_piece`] reads a piece of it and checks no digest. [`is_intact`] checks a body in
//! memory that does not grow with it. All else on the disk stays: the contracts say so of every set of blocks disjoint
//! from the extent, also if the device fails, and at a crash in between. [`laws`] states the laws that follow from the
//! definitions alone.
#![tactic(auto)]

mod blocks;
mod by_pieces;
mod intact;
pub mod laws;
mod read;
mod write;

pub use blocks::{blocks_for, is_on_disk, is_sized};
pub use by_pieces::read_in_pieces;
pub use intact::is_intact;
pub use read::{LoadFault, read_body, read_piece};
pub use write::{write_body, write_piece};
