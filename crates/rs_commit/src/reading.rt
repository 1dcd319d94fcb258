//! Reading the slots.
ghost use Rattle.std.specs.Prelude.{◌≡◌, ◌≤◌, List, ℕ, length, take, None, Some, IfOk, IsErr, IsErrOf, IsTrue};
ghost use Rattle.rs_disk.specs.Runs.{RunsReading, CallsAtMost};
ghost use Rattle.rs_extent.specs.Blocks.{block_size};
ghost use Rattle.rs_commit.specs.Slots.{block, content as content_of, current, pick, OpensTo};
ghost use Rattle.rs_commit.specs.Commit.{IsReady, AreSettled};

use crate::root::{is_known, root_in};
use crate::slot::{OPEN, Slot, SlotContent};
use crate::{Root, SlotFault, Slots};
use rs_disk::{Disk, Fault};
use rs_extent::BLOCK_SIZE;

/// Reads the slots of a disk, and their root.
///
/// It leaves the disk as it is, and makes at most two device calls. A slot is a whole block: a disk
/// of less than 512 bytes has no slot, and one of less than 1,024 bytes no second one.
///
/// # Errors
/// - [`SlotFault::NotASource`] where no slot is open, where an open one has an unknown version, and
///   where both are open with equal generations.
/// - [`SlotFault::Device`] where a device call failed.
pub fn open_slots<D: Disk>(disk: &mut D) -> Result<(Slots, Root), SlotFault>
    ensures runs { RunsReading (IsErrOf result SlotFault.Device) (D.state disk.old)
        (D.state disk.new) }
    ensures calls { CallsAtMost 2 (D.state disk.old) (D.state disk.new) }
    ensures root { IfOk result (λ opened. opened.0.root ≡ opened.1) }

    // Of a device that has followed the model so far:
    ensures found { IfOk result (λ opened. IsTrue (D.state disk.new).honest
        → current (D.state disk.old).now.seen ≡ Some opened.0) }
    ensures none { IsErrOf result SlotFault.NotASource → IsTrue (D.state disk.new).honest
        → current (D.state disk.old).now.seen ≡ None }

    // Where the disk has blocks 0 and 1 and both are settled, a commit may follow.
    ensures ready { IfOk result (λ opened. IsTrue (D.state disk.new).honest
        → 1024 ≤ (D.state disk.old).size → AreSettled (D.state disk.old).now
        → IsReady opened.0 (D.state disk.new).now) }
{
    let first = read_slot(disk, Slot::First)?;
    let second = read_slot(disk, Slot::Second)?;
    match Slots::of(first, second) {
        Some(slots) => {
            let root = slots.root();
            Ok((slots, root))
        }
        None => Err(SlotFault::NotASource),
    }
}

/// Reads a slot.
fn read_slot<D: Disk>(disk: &mut D, slot: Slot) -> Result<SlotContent, Fault>
    ensures runs { RunsReading (IsErr result) (D.state disk.old) (D.state disk.new) }
    ensures calls { CallsAtMost 1 (D.state disk.old) (D.state disk.new) }
    ensures content { IfOk result (λ content. IsTrue (D.state disk.new).honest
        → content ≡ content_of (block (D.state disk.old).now.seen slot)) }
{
    let from = slot.offset();
    if disk.size() < from + BLOCK_SIZE as u64 {
        return Ok(SlotContent::Closed);
    }
    let mut bytes = [0; 54];
    disk.read(from, &mut bytes)?;
    Ok(content(&bytes))
}

/// Returns the content of a slot by its first 54 bytes; the others are never read.
fn content(bytes: &[u8; 54]) -> SlotContent
    ensures { (block : List ℕ) → length block ≡ block_size → bytes.now ≡ take 54 block
        → result ≡ content_of block }
{
    if bytes[0] != OPEN {
        SlotContent::Closed
    } else if is_known(bytes[1]) {
        SlotContent::Open(root_in(bytes))
    } else {
        SlotContent::Unknown
    }
}
