//! The directory of a source, to which its root points, and its bytes on the disk.
//!
//! A [`Directory`] has the [`Header`] of the source and an entry for every page of its three lists. [`directory_bytes`]
//! writes it. [`read_directory`] reads it in either version of the format, or finds that the bytes are no lawful
//! directory. [`laws`] states that bytes are the directory of at most one source.
#![tactic(auto)]

mod directory;
mod format;
mod header;
pub mod laws;
mod limit;
mod named;
mod parts;
mod reading;

pub use directory::Directory;
pub use format::{directory_bytes, directory_size};
pub use header::Header;
pub use limit::Limit;
pub use named::{entries_of, entry_at};
pub use reading::read_directory;
