//! Reading a body.
ghost use Rattle.std.specs.Prelude.{◌≡◌, ◌+◌, ◌-◌, ◌*◌, ◌≤◌, ◌<◌, ◌++◌, length, vec_len, vec_capacity, OnOk, IsErr, IsErrOf, IsTrue};
ghost use Rattle.rs_disk.specs.Runs.{RunsReading, CallsAtMost};
ghost use Rattle.rs_extent.specs.Blocks.{block_size};
ghost use Rattle.rs_extent.specs.Extents.{IsOnDisk};
ghost use Rattle.rs_body.specs.Blocks.{part};
ghost use Rattle.rs_body.specs.Reading.{ReadsBody, ReadsOnce, HasNextPiece};

use crate::blocks::offset_of;
use rs_disk::{Disk, Fault};
use rs_extent::Extent;
use rs_fixity::sha256_of;
use std::alloc::AllocError;
use thiserror::Error;

/// The fault of a body, a page or a directory that was not read.
#[derive(Clone, Copy, Debug, PartialEq, Eq, Error)]
pub enum LoadFault {
    /// The device failed.
    #[error("the device failed")]
    Device,
    /// It is damaged: its bytes do not have its SHA-256, or are not in its format.
    #[error("what stands there is damaged")]
    Damaged,
    /// Memory for it was refused.
    #[error("out of memory")]
    NoMemory,
}

impl From<AllocError> for LoadFault {
    ghost use Rattle.rs_body.specs.declared.read.LoadFault.{LoadFault};

    ghost from_gives = { λ _ fault. fault ≡ LoadFault.NoMemory };

    fn from(_: AllocError) -> LoadFault {
        LoadFault::NoMemory
    }
}

/// Reads the body of `length` bytes at the front of an extent into a vector, in place of the earlier content of the
/// vector, by one device call. A body of no bytes needs no call.
///
/// The blocks of the extent have to lie on the disk, and the bytes have to fit into them. Bytes past the length are not
/// read. Memory is allocated once, for exactly the length, and not at all if the vector has room. The disk stays as it
/// is.
///
/// # Errors
/// - [`LoadFault::NoMemory`] if that memory is refused. The device is then not called.
/// - [`LoadFault::Device`] if the device fails.
/// - [`LoadFault::Damaged`] if the bytes that were read do not have this SHA-256.
///
/// After any of these errors the vector is empty.
pub fn read_body<D: Disk>(
    disk: &mut D,
    extent: Extent,
    length: u32,
    sha256: &[u8; 32],
    into: &mut Vec<u8>,
) -> Result<(), LoadFault>
    requires room { IsOnDisk extent (D.state disk.old).size }
    requires fits { length ≤ block_size * extent.blocks }

    ensures body { ReadsBody (record { extent = extent; length = length; sha256 = sha256.now })
        (D.state disk.old) (D.state disk.new) into.new.items result }
    ensures calls { CallsAtMost 1 (D.state disk.old) (D.state disk.new) }
    ensures no_memory { IsErrOf result LoadFault.NoMemory → (vec_capacity into.old < length)
        × (D.state disk.new ≡ D.state disk.old) }
{
    into.clear();
    into.try_reserve_exact(length as usize)?;
    if append_piece(disk, extent, length, into).is_err() {
        into.clear();
        return Err(LoadFault::Device);
    }
    if sha256_of(into) == *sha256 {
        Ok(())
    } else {
        into.clear();
        Err(LoadFault::Damaged)
    }
}

/// Appends the bytes of an extent up to byte `end` to those before them.
pub(crate) fn append_piece<D: Disk>(
    disk: &mut D,
    extent: Extent,
    end: u32,
    into: &mut Vec<u8>,
) -> Result<(), Fault>
    requires room { IsOnDisk extent (D.state disk.old).size }
    requires order { vec_len into.old ≤ end }
    requires fits { end ≤ block_size * extent.blocks }
    requires space { end ≤ vec_capacity into.old }
    ensures piece { OnOk result (HasNextPiece extent end
        (D.state disk.old) (D.state disk.new) into.old.items into.new.items) }
    ensures space { vec_capacity into.old ≤ vec_capacity into.new }
    ensures reads { ReadsOnce (end - vec_len into.old) (IsErr result)
        (D.state disk.old) (D.state disk.new) }
{
    let at = into.len();
    into.resize(end as usize, 0).unwrap();
    read_piece(disk, extent, at as u32, &mut into[at..])
}

/// Reads a piece of a body from byte `at` of an extent on, as many bytes as the buffer has room for, by one device
/// call. A piece of no bytes needs no call.
///
/// The place is counted in bytes from the front of the extent. The blocks of the extent have to lie on the disk, and
/// the piece has to end within them. Pieces that are read one after the other, each from the end of the last one, join
/// to the body. The disk stays as it is.
///
/// # Errors
/// [`Fault`] if the device fails. The buffer may then hold any bytes.
pub fn read_piece<D: Disk>(
    disk: &mut D,
    extent: Extent,
    at: u32,
    into: &mut [u8],
) -> Result<(), Fault>
    requires room { IsOnDisk extent (D.state disk.old).size }
    requires fits { at + length into.old ≤ block_size * extent.blocks }

    // The device has to have followed the model.
    ensures gives { OnOk result (IsTrue (D.state disk.new).honest
        → part extent (at + length into.old) (D.state disk.old).now.seen
        ≡ part extent at (D.state disk.old).now.seen ++ into.new) }
    ensures runs { RunsReading (IsErr result) (D.state disk.old) (D.state disk.new) }
    ensures calls { CallsAtMost 1 (D.state disk.old) (D.state disk.new) }
    ensures no_call { length into.old ≡ 0 → D.state disk.new ≡ D.state disk.old }
{
    if into.is_empty() {
        return Ok(());
    }
    disk.read(offset_of(extent) + at as u64, into)
}
