//! Checking a body, in memory that does not grow with it.
ghost use Rattle.std.specs.Prelude.{◌≡◌, ◌↔◌, ◌+◌, ◌*◌, ◌/◌, ◌≤◌, length, IfOk, IsErr, IsTrue};
ghost use Rattle.rs_disk.specs.Runs.{RunsReading, CallsAtMost};
ghost use Rattle.rs_fixity.specs.Digests.{digests};
ghost use Rattle.rs_extent.specs.Blocks.{block_size};
ghost use Rattle.rs_extent.specs.Extents.{IsOnDisk};
ghost use Rattle.rs_body.specs.Blocks.{part};

use crate::read::read_piece;
use rs_disk::{Disk, Fault};
use rs_extent::Extent;
use rs_fixity::Sha256Hashing;

/// The size of all pieces but the last, in bytes: 32 blocks.
const PIECE_SIZE: usize = 16_384;

/// Returns whether the body of `length` bytes at the front of an extent has this SHA-256. It reads pieces of 16,384
/// bytes, with one device call per piece, and holds one piece in memory at a time. The last piece may have fewer bytes.
/// A body of no bytes needs no call.
///
/// The blocks of the extent have to lie on the disk, and the bytes have to fit into them. The disk
/// stays as it is.
///
/// # Errors
/// [`Fault`] if the device fails.
pub fn is_intact<D: Disk>(
    disk: &mut D,
    extent: Extent,
    length: u32,
    sha256: &[u8; 32],
) -> Result<bool, Fault>
    requires room { IsOnDisk extent (D.state disk.old).size }
    requires fits { length ≤ block_size * extent.blocks }

    // The device has to have followed the model.
    ensures tells { IfOk result (λ intact. IsTrue (D.state disk.new).honest → (IsTrue intact
        ↔ ((digests (part extent length (D.state disk.old).now.seen)).sha256 ≡ sha256.now))) }
    ensures runs { RunsReading (IsErr result) (D.state disk.old) (D.state disk.new) }
    ensures calls { CallsAtMost ((length + 16383) / 16384) (D.state disk.old) (D.state disk.new) }
    ensures no_call { length ≡ 0 → D.state disk.new ≡ D.state disk.old }
{
    let mut buffer = [0; PIECE_SIZE];
    let mut hashing = Sha256Hashing::new();
    let mut at = 0;
    while at < length {
        let size = (length - at).min(PIECE_SIZE as u32);
        let piece = &mut buffer[..size as usize];
        read_piece(disk, extent, at, piece)?;
        hashing.add(piece);
        at += size;
    }
    Ok(hashing.done() == *sha256)
}
