//! Readers and writers that count their calls and their faults, and stay failed once they have failed.
//!
//! A contract over [`std::io::Read`] and [`std::io::Write`] states which bytes were transferred, and never that a call
//! failed. [`Watched`] adds that: it counts the calls that answer an error. So a function that answers "the reader
//! failed" can prove that a read failed within its own call, and not before it. After a fault every call fails, and
//! makes no call of the reader or writer inside. A failed writer has taken a beginning of its bytes, and the contract
//! states this. No contract can state that the first fault comes exactly where the end inside fails: the calls pass its
//! errors on, and tests show it.
#![tactic(auto)]

pub mod counted;
mod fault;
pub mod watch;

pub use fault::{ReadFault, StreamFault, WriteFault};
pub use watch::Watched;
