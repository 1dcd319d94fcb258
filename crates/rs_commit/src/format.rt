//! Making the slots.
ghost use Rattle.std.specs.Prelude.{◌≡◌, ◌≤◌, length, IsErr, IfOk};
ghost use Rattle.rs_disk.specs.Runs.{CallsAtMost};
ghost use Rattle.rs_commit.specs.Commit.{WritesSlots};
ghost use Rattle.rs_commit.specs.Slots.{written_version};
ghost use Rattle.rs_commit.specs.Format.{slot_bytes, AreMade};

use crate::root::{VERSION, payload, put};
use crate::settled::write_settled;
use crate::slot::{OPEN, Slot};
use crate::{Root, Slots};
use rs_disk::{Disk, Fault};
use rs_extent::BLOCK_SIZE;

/// Makes the slots of a disk and returns them: the first slot holds `root`, and the disk opens to it.
///
/// Call it once the directory is written: its first sync settles the directory too. The disk has
/// blocks 0 and 1, and the root has the version that is written, [`VERSION`]. It makes at most five
/// device calls.
///
/// # Errors
/// [`Fault`] where a device call failed. Blocks 0 and 1 may then hold anything; a read gives the
/// bytes after them as before.
pub fn format_slots<D: Disk>(disk: &mut D, root: &Root) -> Result<Slots, Fault>
    requires size { 1024 ≤ (D.state disk.old).size }
    requires version { root.now.version ≡ written_version }

    // A read gives the bytes after the slots as before, and every image at any moment has them as
    // one at entry.
    ensures runs { WritesSlots (IsErr result) (D.state disk.old) (D.state disk.new) }
    ensures calls { CallsAtMost 5 (D.state disk.old) (D.state disk.new) }

    // After Ok the first slot holds the root, and all bytes are settled.
    ensures made { IfOk result
        (λ slots. AreMade root.now slots (D.state disk.old).now (D.state disk.new).now) }
{
    disk.write(Slot::First.offset(), &closed_slot(&payload(*root)))?;
    write_settled(disk, Slot::Second.offset(), &closed_slot(&[VERSION]))?;
    write_settled(disk, Slot::First.offset(), &[OPEN])?;
    Ok(Slots::fresh(*root))
}

/// Returns the block of a slot: a closed gate, these bytes, and zeros.
pub(crate) fn closed_slot(payload: &[u8]) -> [u8; BLOCK_SIZE]
    requires { length payload.now ≤ 511 }
    ensures { result ≡ slot_bytes 0 payload.now }
{
    let mut bytes = [0; BLOCK_SIZE];
    put(&mut bytes, 1, payload);
    bytes
}
