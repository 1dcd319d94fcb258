//! A file of the operating system as a disk.
//!
//! [`FileDisk`] meets the contract of [`rs_disk::Disk`] over an open file. No contract can
//! determine the bytes that a file returns, so its ghost state is the replay of a record of its
//! calls and their answers, on a file whose first content the type parameter [`Start`] names. The
//! record takes no memory, since only clauses read it. [`honest_is`] defines when a file has
//! followed the model so far. [`FileDisk`] lists the points that the proofs leave for a reader to
//! trust.
#![tactic(auto)]

mod calls;
mod disk;
mod fault;
mod honest;
mod opening;
mod record;
mod start;
mod system;

pub use disk::FileDisk;
pub use fault::FileFault;
pub use honest::honest_is;
pub use start::{Start, Unknown};
