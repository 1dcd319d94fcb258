//! The disk that a source is stored on, and the images that a crash may leave of it.
//!
//! [`Disk`] is the device: its contract is a model of the bytes that a read returns, of the settled
//! bytes and of the unsettled places, and so of every image that a crash may leave. [`MemoryDisk`]
//! meets it in memory: its caller plans its faults, and chooses images of a crash. [`FaultyReader`]
//! and [`FaultyWriter`] are the ends of a stream, and fail from a chosen call on. [`laws`] states
//! the laws that follow from the model alone.
#![tactic(auto)]

mod contents;
mod disk;
mod faulty;
mod history;
pub mod laws;
mod memory;
mod plan;

pub use disk::{Disk, Fault};
pub use faulty::{FaultyReader, FaultyWriter};
pub use memory::MemoryDisk;
