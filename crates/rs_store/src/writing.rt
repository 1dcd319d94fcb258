//! Writing the lists of a plan.

ghost use Rattle.std.specs.Prelude.{◌≡◌, ◌<◌, ◌+◌, ◌++◌, ℕ, Bool, length, All, IfOk, OnOk, IsErrOf, [], ◌∷◌};
ghost use Rattle.rs_extent.specs.Extents.{IsOnDisk, IsBeside, AreBeside, AreApart, AreOnDisk};
ghost use Rattle.rs_body.specs.Blocks.{part, IsSized};
ghost use Rattle.rs_body.specs.Outside.{WritesOnly};
ghost use Rattle.rs_page.specs.Items.{record_format, change_format};
ghost use Rattle.rs_page.specs.Pages.{IsTouched, placed_extents};
ghost use Rattle.rs_page.specs.DiskPages.{IsWritten};
ghost use Rattle.rs_directory.specs.Directory.{written_format};
ghost use Rattle.rs_image.specs.StateOfImage.{listing, AreLists};
ghost use Rattle.rs_plan.specs.Plans.{once_stored, places};
ghost use Rattle.rs_store.specs.Writing.{IsDigestOf, touched_extents, ArePlaced, AreWrittenPages, AreStoredLists, IsWritable, StaysBesideLists};

use rs_body::write_body;
use rs_disk::Disk;
use rs_extent::Extent;
use rs_fixity::sha256_of;
use rs_image::Contents;
use rs_page::StoreFault;
use rs_plan::Plan;
use std::alloc::Global;

/// A written directory, as a root names it.
#[derive(Clone, Copy, Debug, PartialEq, Eq)]
pub(crate) struct Written {
    /// Its length in bytes.
    pub length: u32,
    /// The SHA-256 of its bytes.
    pub sha256: [u8; 32],
}

/// Writes the lists of a plan: all pages that were given blocks, and the directory. The plan gets the stored lists. At
/// every moment, and with any result, the slots and the blocks outside the plan's places stay unchanged.
///
/// # Errors
///
/// - [`StoreFault::NoMemory`] if memory for the bytes of a page or of the directory runs out.
/// - [`StoreFault::Device`] if the device fails.
///
/// After either the places of the lists may have any content.
pub(crate) fn write_lists<D: Disk>(
    alloc: Global,
    disk: &mut D,
    plan: &mut Plan,
) -> Result<Written, StoreFault>
    requires { IsWritable (D.state disk.old).size plan.old }
    ensures written { IfOk result (IsDigestOf (once_stored plan.old.contents)) }
    ensures stored { OnOk result (AreStoredLists plan.old plan.new (D.state disk.old).now.seen
        (D.state disk.new).now.seen) }

    // For every result.
    ensures stays { StaysBesideLists plan.old plan.new }
    ensures writes { WritesOnly (places plan.old) (IsErrOf result StoreFault.Device)
        (D.state disk.old) (D.state disk.new) }
{
    write_pages(alloc, disk, &mut plan.contents)?;
    write_directory(alloc, disk, plan.directory, &plan.contents)
}

/// Writes all pages that were given blocks.
fn write_pages<D: Disk>(
    alloc: Global,
    disk: &mut D,
    contents: &mut Contents,
) -> Result<(), StoreFault>
    requires placed { ArePlaced contents.old }
    requires room { AreOnDisk (touched_extents contents.old) (D.state disk.old).size }
    requires apart { AreApart (touched_extents contents.old) }
    ensures ok { OnOk result (contents.new ≡ once_stored contents.old) }
    ensures pages { OnOk result (AreWrittenPages (D.state disk.new).now.seen contents.old) }
    ensures writes { WritesOnly (touched_extents contents.old) (IsErrOf result StoreFault.Device)
        (D.state disk.old) (D.state disk.new) }
{
    contents.catalogue.store_touched(alloc, disk)?;
    contents.history.store_touched(alloc, disk)?;
    Ok(())
}

/// Writes the directory of these lists.
fn write_directory<D: Disk>(
    alloc: Global,
    disk: &mut D,
    extent: Extent,
    contents: &Contents,
) -> Result<Written, StoreFault>
    requires room { IsOnDisk extent (D.state disk.old).size }
    requires sized { IsSized extent (length (listing written_format contents.now)) }
    ensures written { IfOk result (IsDigestOf contents.now) }
    ensures lists { OnOk result (AreLists contents.now) }
    ensures reads { OnOk result
        (part extent (length (listing written_format contents.now)) (D.state disk.new).now.seen
        ≡ listing written_format contents.now) }
    ensures writes { WritesOnly (extent ∷ []) (IsErrOf result StoreFault.Device)
        (D.state disk.old) (D.state disk.new) }
{
    let bytes = contents.directory(alloc)?;
    let written = Written {
        length: bytes.len() as u32,
        sha256: sha256_of(&bytes),
    };
    write_body(disk, extent, &bytes)?;
    Ok(written)
}
