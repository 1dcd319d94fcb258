//! Recovery after a stop of a source, over any number of sessions.
//!
//! [`recover`] opens the source on a disk that a stop has left. Its contract is the main promise: whatever the stops,
//! it recovers a prefix of the accepted commands that holds every acknowledged one, and the publication, followed by
//! the changes after it, yields exactly the held resources. [`laws`] has the consequences of the definitions.
//! [`format_run_recover`] goes the whole way on a memory disk.
#![tactic(auto)]

pub mod laws;
pub mod mirroring;
mod recovering;
mod reopening;
mod surviving;
pub mod walking;

pub use recovering::recover;
pub use reopening::format_run_recover_twice;
pub use surviving::{Halt, format_run_recover};
