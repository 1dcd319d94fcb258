//! The contract of a disk with its callers.
ghost use Rattle.std.specs.Prelude.{◌≡◌, ◌+◌, ◌≤◌, length, take, drop, OnOk, OnErr, IsTrue};
ghost use Rattle.rs_disk.specs.Medium.{DiskState, IsMedium};
ghost use Rattle.rs_disk.specs.Calls.{CountsCall, Stays, Writes, Tears, Settles};

use thiserror::Error;

/// A device call failed. The disk's contract states the content that it may have left.
#[derive(Clone, Copy, Debug, PartialEq, Eq, Error)]
#[error("the device failed")]
pub struct Fault;

/// A device of a fixed number of bytes that is read, written and synced.
///
/// A write makes its range unsettled, and a sync settles the bytes that a read returns. A crash
/// leaves an *image*: any bytes in the unsettled places, and the settled bytes in all others. The
/// ghost `state` has the bytes that a read returns, the settled bytes and the unsettled places, now
/// and within every counted call. So it determines the images of a crash after every number of
/// calls.
///
/// Every call of `read`, `write` and `sync` adds one to `calls`, and one that fails adds one to
/// `faults`; `last_failed` of the state says whether the last of them failed. Once `calls` is
/// `u64::MAX`, every further call answers [`Fault`], has no effect and adds to neither count.
///
/// The contract determines the effects of a call on the state for every device. It determines the
/// bytes that a read *returned* only while the device has followed the model, which `honest` of the
/// state says: no call makes it true again, and only a read that succeeds with other bytes than the
/// model's makes it false.
pub trait Disk {
    // The model of the disk: its size and counts, its content now, and its content in the past.
    ghost state: { Self → DiskState };

    /// Returns the disk's size in bytes, which never changes.
    fn size(&self) -> u64
        ensures { result ≡ (state self.now).size };

    /// Returns the number of counted calls of `read`, `write` and `sync`.
    fn calls(&self) -> u64
        ensures { result ≡ (state self.now).calls };

    /// Returns the number of counted calls that failed.
    fn faults(&self) -> u64
        ensures { result ≡ (state self.now).faults };

    /// Reads the bytes from the offset `at` on, as many as `into` has room for.
    ///
    /// The range has to lie within the disk. A read leaves the content of the disk as it was.
    ///
    /// # Errors
    /// [`Fault`] where the device fails. `into` may then have any bytes.
    fn read(&mut self, at: u64, into: &mut [u8]) -> Result<(), Fault>
        requires { at + length into.old ≤ (state self.old).size }
        ensures counts { CountsCall (state self.old) (state self.new) result }
        ensures stays { Stays (state self.old) (state self.new) }
        ensures gives { IsTrue (state self.new).honest
            → OnOk result (into.new ≡ take (length into.old) (drop at (state self.old).now.seen)) }
        ensures keeps { IsTrue (state self.old).honest
            → OnOk result (into.new ≡ take (length into.old) (drop at (state self.old).now.seen))
            → IsTrue (state self.new).honest };

    /// Writes the bytes from the offset `at` on. A read returns them from then on, and their range
    /// is unsettled until a sync succeeds.
    ///
    /// The range has to lie within the disk.
    ///
    /// # Errors
    /// [`Fault`] where the device fails. Either the range is then unsettled and may hold any bytes,
    /// or the content is as before.
    fn write(&mut self, at: u64, bytes: &[u8]) -> Result<(), Fault>
        requires { at + length bytes.now ≤ (state self.old).size }
        ensures counts { CountsCall (state self.old) (state self.new) result }
        ensures writes { OnOk result (Writes at bytes.now (state self.old) (state self.new)) }
        ensures tears { OnErr result
            (Tears at (length bytes.now) (state self.old) (state self.new)) }
        ensures keeps { (state self.new).honest ≡ (state self.old).honest };

    /// Settles the bytes that a read returns: after it no place is unsettled.
    ///
    /// # Errors
    /// [`Fault`] where the device fails. It has then settled no place.
    fn sync(&mut self) -> Result<(), Fault>
        ensures counts { CountsCall (state self.old) (state self.new) result }
        ensures settles { OnOk result (Settles (state self.old) (state self.new)) }
        ensures stays { OnErr result (Stays (state self.old) (state self.new)) }
        ensures keeps { (state self.new).honest ≡ (state self.old).honest };

    // The parts of a disk's content have one size, and the bytes that a read returns are an image.
    ghost holds: { (disk : Self) → IsMedium (state disk).size (state disk).now };
}
