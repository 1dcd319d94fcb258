//! The bodies of a copy.

ghost use Rattle.std.specs.Prelude.{◌≡◌, ◌+◌, ◌/◌, [], ◌∷◌, All, IfOk, IfErr, OnOk, IsErr, IsErrOf, IsTrue};
ghost use Rattle.std.specs.List.{AllZip};
ghost use Rattle.rs_disk.specs.Runs.{CallsAtMost};
ghost use Rattle.rs_fixity.specs.Digests.{digests};
ghost use Rattle.rs_extent.specs.Extents.{AreApart};
ghost use Rattle.rs_body.specs.Blocks.{part};
ghost use Rattle.rs_catalogue.specs.Catalogue.{records_of};
ghost use Rattle.rs_image.specs.Reach.{bodies_of};
ghost use Rattle.rs_copy.specs.declared.faults.CopyFault.{CopyFault};
ghost use Rattle.rs_copy.specs.Laying.{IsMoved};
ghost use Rattle.rs_copy.specs.Copies.{calls_for};
ghost use Rattle.rs_copy.specs.Copying.{CopiesBodies, CopiesOnly, HasPlace, IsOfWriting};

use crate::CopyFault;
use rs_body::{read_piece, write_piece};
use rs_catalogue::Catalogue;
use rs_disk::{Disk, Fault};
use rs_extent::Extent;
use rs_fixity::Sha256Hashing;
use rs_record::Record;

// The bytes of a piece of a body: 32 blocks. The last piece may be shorter.
const PIECE_SIZE: usize = 16_384;

/// Copies the body of every record of one catalogue to the extent of the same record of another catalogue, in the order
/// of their names.
///
/// # Errors
///
/// - [`CopyFault::Device`] if a call of either disk fails.
/// - [`CopyFault::Damaged`] if a body does not have its recorded SHA-256.
pub(crate) fn copy_bodies<D: Disk, E: Disk>(
    from: &mut D,
    old: &Catalogue,
    to: &mut E,
    new: &Catalogue,
) -> Result<(), CopyFault>
    requires alike { AllZip IsMoved (records_of old.now) (records_of new.now) }
    requires places { All (HasPlace (D.state from.old).size) (records_of old.now) }
    requires rooms { All (HasPlace (E.state to.old).size) (records_of new.now) }
    requires apart { AreApart (bodies_of (records_of new.now)) }
    ensures copies { CopiesOnly (bodies_of (records_of new.now)) (IsErrOf result CopyFault.Device)
        (record { from = D.state from.old; to = E.state to.old })
        (record { from = D.state from.new; to = E.state to.new }) }
    ensures bodies { CopiesBodies (records_of old.now) (records_of new.now)
        (record { from = D.state from.old; to = E.state to.old })
        (record { from = D.state from.new; to = E.state to.new }) result }
    ensures once { CallsAtMost (calls_for (records_of old.now)) (D.state from.old) (D.state from.new) }
    ensures others { IfErr result IsOfWriting }
{
    for i in 0..old.len() {
        copy_body(from, old.at(i), to, new.at(i).extent)?;
    }
    Ok(())
}

/// Copies the body of a record to the start of an extent, and checks its SHA-256.
fn copy_body<D: Disk, E: Disk>(
    from: &mut D,
    held: &Record,
    to: &mut E,
    extent: Extent,
) -> Result<(), CopyFault>
    requires place { HasPlace (D.state from.old).size held.now }
    requires room { HasPlace (E.state to.old).size (record held.now { extent = extent }) }
    ensures copies { CopiesOnly (extent ∷ []) (IsErrOf result CopyFault.Device)
        (record { from = D.state from.old; to = E.state to.old })
        (record { from = D.state from.new; to = E.state to.new }) }
    ensures bodies { CopiesBodies (held.now ∷ []) (record held.now { extent = extent } ∷ [])
        (record { from = D.state from.old; to = E.state to.old })
        (record { from = D.state from.new; to = E.state to.new }) result }
    ensures once { CallsAtMost ((held.now.length + 16383) / 16384) (D.state from.old) (D.state from.new) }
    ensures others { IfErr result IsOfWriting }
{
    let sha256 = copy_pieces(from, held, to, extent)?;
    if sha256 == held.digests.sha256 {
        Ok(())
    } else {
        Err(CopyFault::Damaged)
    }
}

/// Copies the body of a record to the start of an extent, in pieces of at most 16,384 bytes, and returns the SHA-256 of
/// its copy.
fn copy_pieces<D: Disk, E: Disk>(
    from: &mut D,
    held: &Record,
    to: &mut E,
    extent: Extent,
) -> Result<[u8; 32], Fault>
    requires place { HasPlace (D.state from.old).size held.now }
    requires room { HasPlace (E.state to.old).size (record held.now { extent = extent }) }
    ensures copies { CopiesOnly (extent ∷ []) (IsErr result)
        (record { from = D.state from.old; to = E.state to.old })
        (record { from = D.state from.new; to = E.state to.new }) }
    ensures copied { OnOk result (IsTrue (D.state from.new).honest
        → part extent held.now.length (E.state to.new).now.seen
        ≡ part held.now.extent held.now.length (D.state from.old).now.seen) }
    ensures digest { IfOk result (λ sha256. sha256
        ≡ (digests (part extent held.now.length (E.state to.new).now.seen)).sha256) }
    ensures once { CallsAtMost ((held.now.length + 16383) / 16384) (D.state from.old) (D.state from.new) }
{
    let mut buffer = [0; PIECE_SIZE];
    let mut hashing = Sha256Hashing::new();
    let mut at = 0;
    while at < held.length {
        let size = (held.length - at).min(PIECE_SIZE as u32);
        let piece = &mut buffer[..size as usize];
        read_piece(from, held.extent, at, piece)?;
        hashing.add(piece);
        write_piece(to, extent, at, piece)?;
        at += size;
    }
    Ok(hashing.done())
}
