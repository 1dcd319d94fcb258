//! The whole copy.

ghost use Rattle.std.specs.Prelude.{◌≡◌, ◌⊎◌, IsErrOf};
ghost use Rattle.rs_copy.specs.declared.faults.CopyFault.{CopyFault};
ghost use Rattle.rs_copy.specs.Copies.{Copies};

use crate::CopyFault;
use crate::laying_out::lay_out;
use crate::writing::write_copy;
use rs_commit::Slots;
use rs_disk::Disk;
use rs_extent::Used;
use rs_image::{Contents, Rooted};
use std::alloc::Global;

// The bytes of 16 blocks.
const SMALLEST_DISK: u64 = 8192;

/// A copy of a source, as its disk and the memory hold it.
#[derive(Drop)]
pub struct Copied {
    /// The slots. The first one holds the root.
    pub slots: Slots,
    /// The lists of the root. All their pages are stored.
    pub contents: Contents,
    /// The blocks that the root reaches.
    pub used: Used,
}

/// Copies the source of a root to the disk `to`. The copy has the same state, generation 1 and the version that is
/// written. Bodies pass through a buffer of 16,384 bytes, so memory grows only with the lists. The disk `from` is only
/// read.
///
/// # Errors
///
/// See [`CopyFault`]. `TooSmall` and `Full` leave both disks as they were. `Device` and `Damaged` come only if `to` has
/// room.
pub fn copy_source<D: Disk, E: Disk>(
    alloc: Global,
    from: &mut D,
    old: &Rooted<'_>,
    to: &mut E,
) -> Result<Copied, CopyFault>
    requires { old.now.size ≡ (D.state from.old).size }
    ensures copies { Copies old.now (record { from = D.state from.old; to = E.state to.old })
        (record { from = D.state from.new; to = E.state to.new }) result }

    // After these two the disks themselves are as they were.
    ensures unread { IsErrOf result CopyFault.TooSmall ⊎ IsErrOf result CopyFault.Full
        → from.new ≡ from.old }
    ensures untouched { IsErrOf result CopyFault.TooSmall ⊎ IsErrOf result CopyFault.Full
        → to.new ≡ to.old }
{
    if to.size() < SMALLEST_DISK {
        return Err(CopyFault::TooSmall);
    }
    let contents = old.contents();
    let mut layout = lay_out(alloc, to.size(), contents)?;
    let slots = write_copy(alloc, from, contents, to, &mut layout)?;
    Ok(Copied {
        slots,
        contents: layout.contents,
        used: layout.used,
    })
}
