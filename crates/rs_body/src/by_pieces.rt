//! Reading a body in pieces.
ghost use Rattle.std.specs.Prelude.{◌≡◌, ◌+◌, ◌*◌, ◌/◌, ◌≤◌, ◌<◌, vec_len, vec_capacity, IfOk, IsErrOf};
ghost use Rattle.rs_disk.specs.Runs.{CallsAtMost};
ghost use Rattle.rs_fixity.specs.Digests.{digests};
ghost use Rattle.rs_extent.specs.Blocks.{block_size};
ghost use Rattle.rs_extent.specs.Extents.{IsOnDisk};
ghost use Rattle.rs_body.specs.Blocks.{part};
ghost use Rattle.rs_body.specs.Reading.{ReadsBody, ReadsPart};

use crate::LoadFault;
use crate::read::append_piece;
use rs_disk::{Disk, Fault};
use rs_extent::Extent;
use rs_fixity::Sha256Hashing;

/// The size of all pieces but the last, in bytes: 512 blocks.
const PIECE_SIZE: u32 = 262_144;

/// Reads a body as [`read_body`](crate::read_body) does, but in pieces of 262,144 bytes, with one device call per
/// piece. The last piece may have fewer bytes. It hashes a piece while that is in the cache, so a large body takes less
/// time.
///
/// The blocks of the extent have to lie on the disk, and the bytes have to fit into them. Bytes past the length are not
/// read. Memory is allocated once, for exactly the length, and not at all if the vector has room. The disk stays as it
/// is.
///
/// # Errors
/// As with [`read_body`](crate::read_body).
pub fn read_in_pieces<D: Disk>(
    disk: &mut D,
    extent: Extent,
    length: u32,
    sha256: &[u8; 32],
    into: &mut Vec<u8>,
) -> Result<(), LoadFault>
    requires room { IsOnDisk extent (D.state disk.old).size }
    requires fits { length ≤ block_size * extent.blocks }

    ensures body { ReadsBody (record { extent = extent; length = length; sha256 = sha256.now })
        (D.state disk.old) (D.state disk.new) into.new.items result }
    ensures calls { CallsAtMost ((length + 262143) / 262144) (D.state disk.old) (D.state disk.new) }
    ensures no_memory { IsErrOf result LoadFault.NoMemory → (vec_capacity into.old < length)
        × (D.state disk.new ≡ D.state disk.old) }
{
    into.clear();
    into.try_reserve_exact(length as usize)?;
    let Ok(found) = append_pieces(disk, extent, length, into) else {
        into.clear();
        return Err(LoadFault::Device);
    };
    if found == *sha256 {
        Ok(())
    } else {
        into.clear();
        Err(LoadFault::Damaged)
    }
}

/// Appends the bytes of an extent to an empty vector with room for them, piece by piece, and returns their SHA-256.
fn append_pieces<D: Disk>(
    disk: &mut D,
    extent: Extent,
    length: u32,
    into: &mut Vec<u8>,
) -> Result<[u8; 32], Fault>
    requires room { IsOnDisk extent (D.state disk.old).size }
    requires fits { length ≤ block_size * extent.blocks }
    requires empty { vec_len into.old ≡ 0 }
    requires space { length ≤ vec_capacity into.old }
    ensures part { ReadsPart extent length
        (D.state disk.old) (D.state disk.new) into.new.items result }
    ensures digest { IfOk result (λ found. found ≡ (digests into.new.items).sha256) }
    ensures calls { CallsAtMost ((length + 262143) / 262144)
        (D.state disk.old) (D.state disk.new) }
{
    let mut hashing = Sha256Hashing::new();
    let mut at = 0;
    while at < length {
        let end = at + (length - at).min(PIECE_SIZE);
        append_piece(disk, extent, end, into)?;
        hashing.add(&into[at as usize..]);
        at = end;
    }
    Ok(hashing.done())
}
