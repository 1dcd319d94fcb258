//! A write that is settled at once.
ghost use Rattle.std.specs.Prelude.{◌≡◌, ◌+◌, ◌≤◌, length, IsErr, OnOk};
ghost use Rattle.rs_disk.specs.Medium.{over, resting};
ghost use Rattle.rs_disk.specs.Runs.{WritesWithin, MakesCalls};

use rs_disk::{Disk, Fault};

/// Writes these bytes, and settles all that the disk holds.
pub(crate) fn write_settled<D: Disk>(disk: &mut D, at: u64, bytes: &[u8]) -> Result<(), Fault>
    requires { at + length bytes.now ≤ (D.state disk.old).size }
    ensures writes { WritesWithin at (length bytes.now) (IsErr result) (D.state disk.old)
        (D.state disk.new) }
    ensures calls { MakesCalls 2 (IsErr result) (D.state disk.old) (D.state disk.new) }
    ensures settled { OnOk result ((D.state disk.new).now
        ≡ resting (over (D.state disk.old).now.seen at bytes.now)) }
{
    disk.write(at, bytes)?;
    disk.sync()
}
