//! Writing a body.
ghost use Rattle.std.specs.Prelude.{◌≡◌, ◌+◌, ◌*◌, ◌≤◌, ◌++◌, length, OnOk, IsErr};
ghost use Rattle.rs_extent.specs.Blocks.{block_size};
ghost use Rattle.rs_extent.specs.Extents.{IsOnDisk};
ghost use Rattle.rs_body.specs.Blocks.{part};
ghost use Rattle.rs_body.specs.Outside.{WritesPart};

use crate::blocks::offset_of;
use rs_disk::{Disk, Fault};
use rs_extent::Extent;

/// Writes a body at the front of an extent, by one device call. A body of no bytes needs no call.
///
/// The blocks of the extent have to lie on the disk, and the bytes have to fit into them. A read gives the bytes from
/// then on; a crash may leave any bytes in their place until the next sync. No other byte of the disk changes at any
/// moment of the call, whether it succeeds or not: neither in the rest of the extent nor in the blocks outside it.
///
/// # Errors
/// [`Fault`] if the device fails. The place of the bytes may then hold any bytes.
pub fn write_body<D: Disk>(disk: &mut D, extent: Extent, bytes: &[u8]) -> Result<(), Fault>
    requires room { IsOnDisk extent (D.state disk.old).size }
    requires fits { length bytes.now ≤ block_size * extent.blocks }
    ensures reads { OnOk result (part extent (length bytes.now) (D.state disk.new).now.seen
        ≡ bytes.now) }
    ensures writes { WritesPart extent 0 (length bytes.now) (IsErr result)
        (D.state disk.old) (D.state disk.new) }
{
    write_piece(disk, extent, 0, bytes)
}

/// Writes a piece of a body at byte `at` of an extent, by one device call. A piece of no bytes needs no call.
///
/// The place is counted in bytes from the front of the extent. The blocks of the extent have to lie on the disk, and
/// the piece has to end within them. A read gives the piece from then on, after the bytes before it. So pieces that are
/// written one after the other, each at the end of the last one, form the body. A crash may leave any bytes in the
/// place of a piece until the next sync. No other byte of the disk changes, whether it succeeds or not: outside the
/// place of the piece, a read gives the same bytes as before, and a crash at any moment of the call leaves bytes that
/// it could have left before the call.
///
/// # Errors
/// [`Fault`] if the device fails. The place of the piece may then hold any bytes.
pub fn write_piece<D: Disk>(
    disk: &mut D,
    extent: Extent,
    at: u32,
    piece: &[u8],
) -> Result<(), Fault>
    requires room { IsOnDisk extent (D.state disk.old).size }
    requires fits { at + length piece.now ≤ block_size * extent.blocks }
    ensures reads { OnOk result (part extent (at + length piece.now) (D.state disk.new).now.seen
        ≡ part extent at (D.state disk.old).now.seen ++ piece.now) }
    ensures writes { WritesPart extent at (length piece.now) (IsErr result)
        (D.state disk.old) (D.state disk.new) }
{
    if piece.is_empty() {
        return Ok(());
    }
    disk.write(offset_of(extent) + at as u64, piece)
}
