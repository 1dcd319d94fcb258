//! Copying a source to another disk.
//!
//! [`copy_source`] writes a source of the same state to another disk: the bodies in the order of their names, the pages
//! of the lists, the directory, and last the root. Its first sync removes the old content of that disk. From then on
//! every image of the disk has no root, or represents the copied state.
#![tactic(auto)]

mod bodies;
mod copying;
mod faults;
mod laying_out;
mod listing;
mod placing;
mod writing;

pub use copying::{Copied, copy_source};
pub use faults::CopyFault;
