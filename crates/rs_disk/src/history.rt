//! A memory disk's record of its writes and syncs. It determines the content of the disk within
//! every earlier call.
ghost use Rattle.std.specs.Prelude.{◌≡◌, ℕ, ◌<◌, OnOk, OnErr, IfOk};
ghost use Rattle.rs_disk.specs.Medium.{resting};

use std::alloc::{AllocError, Global};

#[derive(Drop)]
pub(crate) enum HeldChange {
    /// These bytes were put at an offset, and this many places from there on became unsettled.
    Write {
        at: usize,
        places: usize,
        put: Vec<u8>,
    },
    /// The bytes that a read returns were settled.
    Sync,
}

/// A change, and the number of calls before its own.
#[derive(Drop)]
pub(crate) struct CallChange {
    call: u64,
    change: HeldChange,
}

/// The bytes at first, all settled, and the changes since.
#[derive(Drop)]
pub(crate) struct CallHistory {
    first: Vec<u8>,
    entries: Vec<CallChange>,
}

impl CallHistory {
    ghost use Rattle.rs_disk.specs.History.{held_within, during, after};

    pub(crate) fn starting_with(alloc: Global, bytes: &[u8]) -> Result<Self, AllocError>
        ensures { IfOk result (λ h. (k : ℕ) → held_within k h ≡ resting bytes.now) }
    {
        Ok(CallHistory {
            first: bytes.to_vec(alloc)?,
            entries: Vec::new(alloc),
        })
    }

    /// Records a change of the call that comes after `call` others.
    pub(crate) fn note(&mut self, call: u64, change: HeldChange) -> Result<(), AllocError>
        ensures before { OnOk result ((k : ℕ) → k < call
            → held_within k self.new ≡ held_within k self.old) }
        ensures within { OnOk result (held_within call self.new
            ≡ during change (held_within call self.old)) }
        ensures after { OnOk result ((k : ℕ) → call < k
            → held_within k self.new ≡ after change (held_within k self.old)) }
        ensures err { OnErr result ((k : ℕ) → held_within k self.new ≡ held_within k self.old) }
    {
        self.entries.push(CallChange { call, change })?;
        Ok(())
    }
}
