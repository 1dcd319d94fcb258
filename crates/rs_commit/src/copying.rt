//! The slots of a disk that a source is copied to.
ghost use Rattle.std.specs.Prelude.{◌≡◌, ◌≤◌, drop, IsErr, IfOk, OnOk};
ghost use Rattle.rs_disk.specs.Medium.{over, resting};
ghost use Rattle.rs_disk.specs.Leaves.{Leaves};
ghost use Rattle.rs_disk.specs.Runs.{WritesWithin, MakesCalls};
ghost use Rattle.rs_commit.specs.Commit.{WritesSlots};
ghost use Rattle.rs_commit.specs.Slots.{payload_of, written_version, IsLawfulRoot};
ghost use Rattle.rs_commit.specs.Format.{slot_bytes, with_closed_gates, AreShut, HoldsFirst, IsAsBefore, NoneOrRoot};

use crate::format::closed_slot;
use crate::root::payload;
use crate::settled::write_settled;
use crate::slot::{CLOSED, OPEN, Slot};
use crate::{Root, Slots};
use rs_disk::{Disk, Fault};

/// Closes both slots of a disk, with any content, and settles them: until a root is put there, the
/// disk opens to none. All other bytes stay. It makes three device calls, where none fails.
///
/// The disk has blocks 0 and 1.
///
/// # Errors
/// [`Fault`] where a device call failed. The gates may then hold anything; all other bytes stay.
pub fn close_slots<D: Disk>(disk: &mut D) -> Result<(), Fault>
    requires { 1024 ≤ (D.state disk.old).size }

    // A read gives the bytes after the slots as before, and every image at any moment has them as
    // one at entry.
    ensures runs { WritesSlots (IsErr result) (D.state disk.old) (D.state disk.new) }
    ensures calls { MakesCalls 3 (IsErr result) (D.state disk.old) (D.state disk.new) }

    // With any result, every image at any moment is as one at entry, except for the two gates.
    ensures gates { Leaves (D.state disk.old) (D.state disk.new)
        (λ _. IsAsBefore (D.state disk.old).now) }

    // After Ok both are closed, and all bytes are settled.
    ensures shut { OnOk result (AreShut (D.state disk.new).now) }
    ensures written { OnOk result ((D.state disk.new).now
        ≡ resting (with_closed_gates (D.state disk.old).now.seen)) }
{
    disk.write(Slot::First.offset(), &[CLOSED])?;
    write_settled(disk, Slot::Second.offset(), &[CLOSED])
}

/// Puts a root into the first slot of a disk whose slots are both closed, as [`close_slots`] leaves
/// them: settles the bytes that follow the closed gate, with all that was written before, and then
/// opens the gate. Stopped at any moment, every image opens to no root or to this one. It makes
/// four device calls, where none fails.
///
/// The disk has blocks 0 and 1, and the root has the version that is written,
/// [`VERSION`](crate::VERSION).
///
/// # Errors
/// [`Fault`] where a device call failed.
pub fn open_first<D: Disk>(disk: &mut D, root: &Root) -> Result<Slots, Fault>
    requires size { 1024 ≤ (D.state disk.old).size }
    requires version { root.now.version ≡ written_version }
    ensures runs { WritesSlots (IsErr result) (D.state disk.old) (D.state disk.new) }
    ensures calls { MakesCalls 4 (IsErr result) (D.state disk.old) (D.state disk.new) }

    // Stopped at any moment, the disk opens to no root or to this one.
    ensures any_moment { AreShut (D.state disk.old).now
        → Leaves (D.state disk.old) (D.state disk.new)
        (λ _. NoneOrRoot (D.state disk.old).now root.now) }

    // After Ok it opens to this one, and all bytes are settled.
    ensures made { IfOk result
        (λ slots. HoldsFirst root.now slots (D.state disk.old).now (D.state disk.new).now) }
{
    stage_first(disk, root)?;
    write_settled(disk, Slot::First.offset(), &[OPEN])?;
    Ok(Slots::fresh(*root))
}

/// Writes a root and zeros to the bytes of the first slot that follow its gate, and syncs.
fn stage_first<D: Disk>(disk: &mut D, root: &Root) -> Result<(), Fault>
    requires size { 1024 ≤ (D.state disk.old).size }
    requires version { root.now.version ≡ written_version }
    ensures writes { WritesWithin 1 511 (IsErr result) (D.state disk.old) (D.state disk.new) }
    ensures calls { MakesCalls 2 (IsErr result) (D.state disk.old) (D.state disk.new) }
    ensures written { OnOk result ((D.state disk.new).now ≡ resting (over
        (D.state disk.old).now.seen 1 (drop 1 (slot_bytes 1 (payload_of root.now))))) }
    ensures lawful { IsLawfulRoot root.now }
{
    let bytes = closed_slot(&payload(*root));
    write_settled(disk, Slot::First.offset() + 1, &bytes[1..])
}
