//! The slots of a disk, and the change of the root.
ghost use Rattle.std.specs.Prelude.{◌≡◌, ◌+◌, ◌<◌, ◌≤◌, ◌^◌, ◌↔◌, [], ◌∷◌, IsErr, IsErrOf, OnOk, OnErr};
ghost use Rattle.std.specs.Bool.{OnTrue, OnFalse};
ghost use Rattle.rs_disk.specs.Medium.{over, resting};
ghost use Rattle.rs_disk.specs.Leaves.{Leaves};
ghost use Rattle.rs_disk.specs.Runs.{WritesWithin, CallsAtMost};
ghost use Rattle.rs_commit.specs.Slots.{offset, other, pick, newer as newer_of, payload_of, IsLawfulRoot};
ghost use Rattle.rs_commit.specs.Format.{fresh};
ghost use Rattle.rs_commit.specs.Commit.{WritesSlots, IsReady, OldOrNew, Committed, next, with_root};

use crate::root::{VERSION, payload};
use crate::settled::write_settled;
use crate::slot::{CLOSED, OPEN, Slot, SlotContent};
use crate::{CommitFault, Root};
use rs_disk::{Disk, Fault};
use rs_extent::Extent;
use std::cmp::Ordering;
use std::marker::Model;

/// The slots of a disk, as [`open_slots`](crate::open_slots) found them.
///
/// Contracts see which slot holds the root, the root, and whether the other slot, the spare, is
/// open.
#[derive(Debug, Drop)]
pub struct Slots {
    slot: Slot,
    root: Root,
    spare_open: bool,
}

impl Model for Slots {
    ghost use Rattle.rs_commit.specs.Slots.{Standing};

    ghost Value = { Standing };

    ghost view = { λ s. record { slot = s.slot; root = s.root; spare_open = s.spare_open } };
}

impl Slots {
    /// Returns the root.
    pub fn root(&self) -> Root
        ensures { result ≡ self.now.root }
    {
        self.root
    }

    /// Returns the slots as they are made: the first one holds the root, and the spare is closed.
    pub(crate) fn fresh(root: Root) -> Slots
        ensures { result ≡ fresh root }
    {
        Slots {
            slot: Slot::First,
            root,
            spare_open: false,
        }
    }

    /// Returns the slots with these contents, or `None` where they hold no root.
    pub(crate) fn of(first: SlotContent, second: SlotContent) -> Option<Slots>
        ensures { result ≡ pick first second }
    {
        match (first, second) {
            (SlotContent::Open(root), SlotContent::Closed) => Some(Slots {
                slot: Slot::First,
                root,
                spare_open: false,
            }),
            (SlotContent::Closed, SlotContent::Open(root)) => Some(Slots {
                slot: Slot::Second,
                root,
                spare_open: false,
            }),
            (SlotContent::Open(first), SlotContent::Open(second)) => Slots::newer(first, second),
            _ => None,
        }
    }

    /// Returns the slots where both are open, or `None` where the generations are equal.
    fn newer(first: Root, second: Root) -> Option<Slots>
        ensures { result ≡ newer_of first second }
    {
        let (slot, root) = match first.generation.cmp(&second.generation) {
            Ordering::Greater => (Slot::First, first),
            Ordering::Less => (Slot::Second, second),
            Ordering::Equal => return None,
        };
        Some(Slots {
            slot,
            root,
            spare_open: true,
        })
    }

    /// Replaces the root by one of the next generation, in one step: stopped at any moment, every
    /// image opens to the old root or to the new one. The new root has the version
    /// [`VERSION`](crate::VERSION), for any version of the old one.
    ///
    /// The disk has blocks 0 and 1. The promise holds where the slots are as a read gives them and
    /// both blocks are settled (`IsReady`): after [`open_slots`](crate::open_slots) on a synced
    /// disk, and after every successful commit. It makes at most six device calls.
    ///
    /// # Errors
    /// - [`CommitFault::Exhausted`] exactly where the generation has its last value. The disk and the slots stay as
    ///   they are then.
    /// - [`CommitFault::Device`] where a device call failed. Sync the disk and open the slots again
    ///   before the next commit.
    pub fn commit<D: Disk>(
        &mut self,
        disk: &mut D,
        directory: Extent,
        length: u32,
        sha256: &[u8; 32],
    ) -> Result<(), CommitFault>
        requires { 1024 ≤ (D.state disk.old).size }

        // On every device, and for any state of the slots: no byte after them is written.
        ensures runs { WritesSlots (IsErrOf result CommitFault.Device) (D.state disk.old)
            (D.state disk.new) }
        ensures calls { CallsAtMost 6 (D.state disk.old) (D.state disk.new) }

        // Stopped at any moment, the disk opens to the old root or to the new one.
        ensures any_moment { IsReady self.old (D.state disk.old).now
            → Leaves (D.state disk.old) (D.state disk.new) (λ _. OldOrNew (D.state disk.old).now
            self.old.root (next self.old.root directory length sha256.now)) }

        // After Ok it opens to the new one, all bytes are settled, and another commit may follow.
        ensures committed { OnOk result
            (Committed (next self.old.root directory length sha256.now) self.old self.new
            (D.state disk.old).now (D.state disk.new).now) }

        // Where no generation is left, the disk and the slots stay as they are.
        ensures exhausted { IsErrOf result CommitFault.Exhausted
            ↔ (2 ^ 64 ≤ self.old.root.generation + 1) }
        ensures untouched { IsErrOf result CommitFault.Exhausted
            → D.state disk.new ≡ D.state disk.old }
        ensures kept { OnErr result (self.new ≡ self.old) }
    {
        if self.root.generation == u64::MAX {
            return Err(CommitFault::Exhausted);
        }
        let root = Root {
            version: VERSION,
            generation: self.root.generation + 1,
            directory,
            length,
            sha256: *sha256,
        };
        self.put_root(disk, root)?;
        *self = Slots {
            slot: self.slot.other(),
            root,
            spare_open: true,
        };
        Ok(())
    }

    /// Puts a root into the spare: closes it, writes its other bytes, and opens it once they are
    /// settled.
    fn put_root<D: Disk>(&self, disk: &mut D, root: Root) -> Result<(), Fault>
        requires size { 1024 ≤ (D.state disk.old).size }
        requires lawful { IsLawfulRoot root }
        ensures runs { WritesSlots (IsErr result) (D.state disk.old) (D.state disk.new) }
        ensures calls { CallsAtMost 6 (D.state disk.old) (D.state disk.new) }
        ensures any_moment { self.now.root.generation < root.generation
            → IsReady self.now (D.state disk.old).now → Leaves (D.state disk.old) (D.state disk.new)
            (λ _. OldOrNew (D.state disk.old).now self.now.root root) }
        ensures written { OnOk result ((D.state disk.new).now
            ≡ resting (with_root (D.state disk.old).now.seen (other self.now.slot) root)) }
    {
        let spare = self.slot.other();
        close_gate(disk, spare, self.spare_open)?;
        write_behind(disk, spare, root)?;
        open_gate(disk, spare)
    }
}

/// Closes a slot. A closed slot is not written: its gate is settled as closed, its other bytes may be
/// torn, and a write that stops halfway could leave any gate.
fn close_gate<D: Disk>(disk: &mut D, slot: Slot, is_open: bool) -> Result<(), Fault>
    requires { 1024 ≤ (D.state disk.old).size }
    ensures writes { WritesWithin (offset slot) 1 (IsErr result) (D.state disk.old)
        (D.state disk.new) }
    ensures calls { CallsAtMost 2 (D.state disk.old) (D.state disk.new) }
    ensures closed { OnTrue is_open (OnOk result ((D.state disk.new).now
        ≡ resting (over (D.state disk.old).now.seen (offset slot) (0 ∷ [])))) }
    ensures nothing { OnFalse is_open (D.state disk.new ≡ D.state disk.old) }
{
    if is_open {
        write_settled(disk, slot.offset(), &[CLOSED])?;
    }
    Ok(())
}

/// Writes a root to the bytes of a slot that follow its gate.
fn write_behind<D: Disk>(disk: &mut D, slot: Slot, root: Root) -> Result<(), Fault>
    requires size { 1024 ≤ (D.state disk.old).size }
    requires lawful { IsLawfulRoot root }
    ensures writes { WritesWithin (offset slot + 1) 53 (IsErr result) (D.state disk.old)
        (D.state disk.new) }
    ensures calls { CallsAtMost 2 (D.state disk.old) (D.state disk.new) }
    ensures written { OnOk result ((D.state disk.new).now
        ≡ resting (over (D.state disk.old).now.seen (offset slot + 1) (payload_of root))) }
{
    write_settled(disk, slot.offset() + 1, &payload(root))
}

/// Opens a slot.
fn open_gate<D: Disk>(disk: &mut D, slot: Slot) -> Result<(), Fault>
    requires { 1024 ≤ (D.state disk.old).size }
    ensures writes { WritesWithin (offset slot) 1 (IsErr result) (D.state disk.old)
        (D.state disk.new) }
    ensures calls { CallsAtMost 2 (D.state disk.old) (D.state disk.new) }
    ensures opened { OnOk result ((D.state disk.new).now
        ≡ resting (over (D.state disk.old).now.seen (offset slot) (1 ∷ []))) }
{
    write_settled(disk, slot.offset(), &[OPEN])
}
