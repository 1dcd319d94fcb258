//! One of the two slots, and its content.
ghost use Rattle.std.specs.Prelude.{◌≡◌};
ghost use Rattle.rs_commit.specs.Slots.{offset as offset_of, other as other_of};

use crate::Root;
use rs_extent::BLOCK_SIZE;

/// The gate of an open slot. Every other value is a closed gate.
pub(crate) const OPEN: u8 = 1;

/// The gate that closes a slot, in a commit and in formatting.
pub(crate) const CLOSED: u8 = 0;

/// One of the two slots: block 0 or block 1 of the disk.
#[derive(Clone, Copy, Debug, PartialEq, Eq)]
pub(crate) enum Slot {
    First,
    Second,
}

impl Slot {
    /// Returns the other slot.
    pub(crate) fn other(self) -> Slot
        ensures { result ≡ other_of self }
    {
        match self {
            Slot::First => Slot::Second,
            Slot::Second => Slot::First,
        }
    }

    /// Returns the offset of the slot, in bytes.
    pub(crate) fn offset(self) -> u64
        ensures { result ≡ offset_of self }
    {
        match self {
            Slot::First => 0,
            Slot::Second => BLOCK_SIZE as u64,
        }
    }
}

/// The content of a slot.
#[derive(Clone, Copy)]
pub(crate) enum SlotContent {
    /// No root: its gate is closed, or the disk has no such block.
    Closed,
    /// It is open, and its version is not known.
    Unknown,
    /// It is open and holds a root.
    Open(Root),
}
