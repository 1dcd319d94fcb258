//! A history on the disk.

ghost use Rattle.std.specs.Prelude.{◌≡◌, ◌↔◌, All, IfOk, OnOk, OnErr, IsErrOf, IsTrue, ◌≤◌};
ghost use Rattle.rs_extent.specs.Extents.{AreApart, AreOnDisk};
ghost use Rattle.rs_page.specs.Items.{change_format};
ghost use Rattle.rs_page.specs.Placing.{HasNoPlace};
ghost use Rattle.rs_page.specs.Pages.{IsTouched, items_of, placed_extents};
ghost use Rattle.rs_pages.specs.Storing.{items_by_page, AreStoredAt, PlacesTouched, StoresTouched, StoresSome, WritesPages, ReadsPages};
ghost use Rattle.rs_time.specs.Moment.{greatest};
ghost use Rattle.rs_model.specs.Regular.{is_rising as rising};
ghost use Rattle.rs_changes.specs.History.{HaveSameChanges, EndsUnstored, HoldsHistory, HoldsNoHistory};

use crate::History;
use rs_body::LoadFault;
use rs_disk::Disk;
use rs_extent::Used;
use rs_page::laws::pages_hold_once;
use rs_page::{Full, PageRef, StoreFault};
use rs_pages::Pages;
use rs_record::Change;
use std::alloc::Global;

impl History {
    /// Gives every touched page the lowest run of free blocks of its size, one page after the other. It takes no
    /// memory.
    ///
    /// # Errors
    ///
    /// [`Full`] if no free run is long enough for a page. The history and the used blocks are then unchanged.
    pub fn place_touched(&mut self, used: &mut Used) -> Result<(), Full>
        ensures ok { OnOk result
            (PlacesTouched change_format used.old self.old.pages used.new self.new.pages) }
        ensures unstored { EndsUnstored self.old.pages → EndsUnstored self.new.pages }
        ensures full { OnErr result (HasNoPlace change_format used.old self.old.pages) }
        ensures used { OnErr result (used.new ≡ used.old) }
        ensures unchanged { OnErr result (self.new ≡ self.old) }
        ensures changes { HaveSameChanges self.new self.old }
    {
        self.pages.place_touched(used)
    }

    /// Writes the pages that have blocks but are not written, as [`Pages::store_touched`] does.
    ///
    /// No page is touched. The extents of the pages to write lie on the disk and have no block in common.
    ///
    /// # Errors
    ///
    /// The errors of [`Pages::store_touched`]. After an error the changes are unchanged, and every page is unchanged,
    /// or is written and stored.
    pub fn store_touched<D: Disk>(&mut self, alloc: Global, disk: &mut D) -> Result<(), StoreFault>
        requires placed { All (λ page. ¬ IsTouched page.place) self.old.pages }
        requires room { AreOnDisk (placed_extents self.old.pages) (D.state disk.old).size }
        requires apart { AreApart (placed_extents self.old.pages) }
        ensures ok { OnOk result
            (StoresTouched change_format (D.state disk.new).now.seen self.old.pages self.new.pages) }
        ensures err { OnErr result
            (StoresSome change_format (D.state disk.new).now.seen self.old.pages self.new.pages) }
        ensures changes { HaveSameChanges self.new self.old }
        ensures writes { WritesPages self.old.pages (IsErrOf result StoreFault.Device)
            (D.state disk.old) (D.state disk.new) }
    {
        self.pages.store_touched(alloc, disk)
    }

    /// Reads the history that these references point to, with one device call per page. The references may have any
    /// values. Its first part has the number `first`, at most 253,402,300,799,999. The disk stays as it is.
    ///
    /// It asks for no memory for a page before it has checked that the extent lies on the disk and
    /// has exactly the blocks of the length, and for none once it has passed 50,000 changes.
    ///
    /// # Errors
    ///
    /// - [`LoadFault::Device`] where the device fails.
    /// - [`LoadFault::Damaged`] where the disk holds no history there: a page is damaged, the
    ///   moments do not strictly rise through all pages, or there are more than 50,000 changes.
    /// - [`LoadFault::NoMemory`] where the memory is refused.
    pub fn load<D: Disk>(
        alloc: Global,
        disk: &mut D,
        first: u64,
        pages: &[PageRef],
    ) -> Result<History, LoadFault>
        requires { first ≤ greatest }
        ensures first { IfOk result (λ loaded. loaded.first ≡ first) }
        ensures pages { IfOk result (λ loaded. AreStoredAt pages.now loaded.pages) }

        // Where the device has followed the model:
        ensures found { IfOk result (λ loaded. IsTrue (D.state disk.new).honest
            → HoldsHistory pages.now (D.state disk.new).now.seen (items_by_page loaded.pages)) }
        ensures damaged { IsErrOf result LoadFault.Damaged → IsTrue (D.state disk.new).honest
            → HoldsNoHistory pages.now (D.state disk.new).now.seen }
        ensures reads { ReadsPages pages.now (IsErrOf result LoadFault.Device)
            (D.state disk.old) (D.state disk.new) }
    {
        pages_hold_once::<Change>();
        let pages = Pages::load(alloc, disk, pages)?;
        if !is_rising(&pages) {
            return Err(LoadFault::Damaged);
        }
        Ok(History { first, pages })
    }
}

/// Returns whether the moments strictly rise through all pages.
fn is_rising(changes: &Pages<Change>) -> bool
    ensures { IsTrue result ↔ IsTrue (rising (items_of changes.now)) }
{
    for i in 1..changes.len() {
        if changes.at(i).moment <= changes.at(i - 1).moment {
            return false;
        }
    }
    true
}
