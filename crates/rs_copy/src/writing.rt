//! Writing a copy as it was laid out.

ghost use Rattle.std.specs.Prelude.{◌≡◌, ◌<◌, ◌≤◌, [], ◌∷◌, All, IfOk, IfErr, OnOk, IsErrOf};
ghost use Rattle.std.specs.List.{AllZip};
ghost use Rattle.rs_disk.specs.Runs.{CallsAtMost};
ghost use Rattle.rs_extent.specs.Extents.{AreApart, AreOnDisk, IsOnDisk};
ghost use Rattle.rs_body.specs.Blocks.{IsSized};
ghost use Rattle.rs_body.specs.Outside.{WritesOnly};
ghost use Rattle.rs_page.specs.declared.page.store.StoreFault.{StoreFault};
ghost use Rattle.rs_catalogue.specs.Catalogue.{records_of};
ghost use Rattle.rs_image.specs.StateOfImage.{directory_bytes_of, AreAllStored};
ghost use Rattle.rs_copy.specs.declared.faults.CopyFault.{CopyFault};
ghost use Rattle.rs_copy.specs.Laying.{IsLaidOut, IsMoved, all_stored};
ghost use Rattle.rs_copy.specs.Copies.{calls_for};
ghost use Rattle.rs_copy.specs.Copying.{ArePagesWritten, AreUntouched, CopiesBodies, CopiesOnly, HasPlace, HasRoom, IsBehindRoot, IsListed, IsOfListing, IsOfWriting, IsWrittenBehind, WritesCopy, copied_root, pages_in, written_in};

use crate::CopyFault;
use crate::bodies::copy_bodies;
use crate::laying_out::Layout;
use rs_body::write_body;
use rs_commit::laws::shut_tells_none;
use rs_commit::{Root, Slots, VERSION, close_slots, open_first};
use rs_disk::Disk;
use rs_extent::Extent;
use rs_fixity::sha256_of;
use rs_image::Contents;
use rs_page::StoreFault;
use std::alloc::Global;

/// Writes a copy of these lists as it was laid out: closes the slots, copies the bodies, writes the
/// pages and the directory, and puts the root into the first slot. The layout gets the stored lists.
///
/// # Errors
///
/// - [`CopyFault::Device`] if a call of either disk fails.
/// - [`CopyFault::Damaged`] if a body does not have its recorded SHA-256.
/// - [`CopyFault::NoMemory`] if memory for the bytes of a page or of the directory runs out.
pub(crate) fn write_copy<D: Disk, E: Disk>(
    alloc: Global,
    from: &mut D,
    old: &Contents,
    to: &mut E,
    layout: &mut Layout,
) -> Result<Slots, CopyFault>
    requires behind { IsBehindRoot (D.state from.old).size old.now }
    requires laid_out { IsLaidOut (E.state to.old).size old.now layout.old.contents
        layout.old.directory layout.old.used }
    requires size { 1024 ≤ (E.state to.old).size }
    ensures { WritesCopy old.now layout.old layout.new
        (record { from = D.state from.old; to = E.state to.old })
        (record { from = D.state from.new; to = E.state to.new }) result }
{
    shut_tells_none();
    close_slots(to)?;
    let root = write_behind(alloc, from, old, to, layout)?;
    Ok(open_first(to, &root)?)
}

/// Writes everything after the slots: the bodies, the pages and the directory. Returns the root that names the
/// directory.
fn write_behind<D: Disk, E: Disk>(
    alloc: Global,
    from: &mut D,
    old: &Contents,
    to: &mut E,
    layout: &mut Layout,
) -> Result<Root, CopyFault>
    requires places { All (HasPlace (D.state from.old).size) (records_of old.now.catalogue) }
    requires alike { AllZip IsMoved (records_of old.now.catalogue)
        (records_of layout.old.contents.catalogue) }
    requires room { HasRoom (E.state to.old).size layout.old.contents layout.old.directory }
    ensures copies { CopiesOnly (written_in layout.old.contents layout.old.directory)
        (IsErrOf result CopyFault.Device)
        (record { from = D.state from.old; to = E.state to.old })
        (record { from = D.state from.new; to = E.state to.new }) }
    ensures bodies { CopiesBodies (records_of old.now.catalogue)
        (records_of layout.old.contents.catalogue)
        (record { from = D.state from.old; to = E.state to.old })
        (record { from = D.state from.new; to = E.state to.new }) result }
    ensures once { CallsAtMost (calls_for (records_of old.now.catalogue))
        (D.state from.old) (D.state from.new) }
    ensures made { IfOk result
        (λ root. IsWrittenBehind layout.old layout.new root (E.state to.new).now.seen) }
    ensures others { IfErr result IsOfWriting }
{
    copy_bodies(from, &old.catalogue, to, &layout.contents.catalogue)?;
    write_pages(alloc, to, &mut layout.contents)?;
    write_directory(alloc, to, layout.directory, &layout.contents)
}

/// Writes every page that was given blocks.
fn write_pages<E: Disk>(
    alloc: Global,
    to: &mut E,
    contents: &mut Contents,
) -> Result<(), StoreFault>
    requires untouched { AreUntouched contents.old }
    requires room { AreOnDisk (pages_in contents.old) (E.state to.old).size }
    requires apart { AreApart (pages_in contents.old) }
    ensures stored { OnOk result (contents.new ≡ all_stored contents.old) }
    ensures written { OnOk result (ArePagesWritten (E.state to.new).now.seen contents.old) }
    ensures writes { WritesOnly (pages_in contents.old) (IsErrOf result StoreFault.Device)
        (E.state to.old) (E.state to.new) }
{
    contents.catalogue.store_touched(alloc, to)?;
    contents.history.store_touched(alloc, to)?;
    contents.published.store_touched(alloc, to)
}

/// Writes the directory of these lists, whose pages are all stored. Returns the root that names it.
fn write_directory<E: Disk>(
    alloc: Global,
    to: &mut E,
    extent: Extent,
    contents: &Contents,
) -> Result<Root, CopyFault>
    requires stored { AreAllStored contents.now }
    requires room { IsOnDisk extent (E.state to.old).size }
    requires sized { IsSized extent (directory_bytes_of contents.now) }
    ensures root { IfOk result (λ root. root ≡ copied_root extent contents.now) }
    ensures listed { OnOk result (IsListed extent contents.now (E.state to.new).now.seen) }
    ensures others { IfErr result IsOfListing }
    ensures writes { WritesOnly (extent ∷ []) (IsErrOf result CopyFault.Device)
        (E.state to.old) (E.state to.new) }
{
    let bytes = contents.directory(alloc)?;
    write_body(to, extent, &bytes)?;
    Ok(Root {
        version: VERSION,
        generation: 1,
        directory: extent,
        length: bytes.len() as u32,
        sha256: sha256_of(&bytes),
    })
}
