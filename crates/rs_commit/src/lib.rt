//! The two root slots of a disk. A crash at any moment leaves the old root or the new one.
//!
//! Blocks 0 and 1 of a disk are its root slots. The open slot of the greater generation holds the
//! [`Root`], which names the place of the directory; the other slot is the spare. [`Slots::commit`]
//! puts the next root into the spare, and orders its writes and syncs so that every image of a
//! crash opens to the old root or to the new one. [`format_slots`] makes the slots, [`open_slots`]
//! reads them, and [`laws`] states the consequences of their definition alone.
#![tactic(auto)]

mod copying;
mod faults;
mod format;
pub mod laws;
mod reading;
mod root;
mod settled;
mod slot;
mod slots;

pub use copying::{close_slots, open_first};
pub use faults::{CommitFault, SlotFault};
pub use format::format_slots;
pub use reading::open_slots;
pub use root::{Root, VERSION};
pub use slots::Slots;
