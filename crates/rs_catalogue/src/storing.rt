//! A catalogue on the disk.

ghost use Rattle.std.specs.Prelude.{◌≡◌, ℕ, List, All, IfOk, OnOk, OnErr, IsErrOf, IsTrue};
ghost use Rattle.rs_extent.specs.Extents.{AreApart, AreOnDisk};
ghost use Rattle.rs_page.specs.Items.{record_format};
ghost use Rattle.rs_page.specs.Placing.{HasNoPlace};
ghost use Rattle.rs_page.specs.DiskPages.{Stands};
ghost use Rattle.rs_page.specs.Pages.{IsTouched, placed_extents, stored_refs};
ghost use Rattle.rs_pages.specs.Storing.{items_by_page, AreStoredAt, PlacesTouched, StoresTouched, StoresSome, WritesPages, ReadsPages, unshared};
ghost use Rattle.rs_catalogue.specs.Catalogue.{records_of, StandsUnstored, HoldsCatalogue, HoldsNoCatalogue};

use crate::Catalogue;
use rs_body::LoadFault;
use rs_disk::Disk;
use rs_extent::Used;
use rs_page::laws::pages_hold_once;
use rs_page::{Full, PageRef, StoreFault};
use rs_pages::Pages;
use rs_record::Record;
use std::alloc::Global;

impl Catalogue {
    /// Gives every touched page the lowest run of free blocks of its size, one page after the other. It takes no
    /// memory.
    ///
    /// # Errors
    ///
    /// [`Full`] if no free run is long enough for a page. The catalogue and the used blocks are then unchanged.
    pub fn place_touched(&mut self, used: &mut Used) -> Result<(), Full>
        ensures ok { OnOk result
            (PlacesTouched record_format used.old self.old used.new self.new) }
        ensures unstored { (name : List ℕ)
            → StandsUnstored name self.old → StandsUnstored name self.new }
        ensures full { OnErr result (HasNoPlace record_format used.old self.old) }
        ensures used { OnErr result (used.new ≡ used.old) }
        ensures unchanged { OnErr result (self.new ≡ self.old) }
        ensures records { records_of self.new ≡ records_of self.old }
    {
        self.pages.place_touched(used)
    }

    /// Writes the pages that have blocks but are not written, as [`Pages::store_touched`] does.
    ///
    /// No page is touched. The extents of the pages to write lie on the disk and have no block in common.
    ///
    /// # Errors
    ///
    /// The errors of [`Pages::store_touched`]. After an error the records are unchanged, and every page is unchanged,
    /// or is written and stored.
    pub fn store_touched<D: Disk>(&mut self, alloc: Global, disk: &mut D) -> Result<(), StoreFault>
        requires placed { All (λ page. ¬ IsTouched page.place) self.old }
        requires room { AreOnDisk (placed_extents self.old) (D.state disk.old).size }
        requires apart { AreApart (placed_extents self.old) }
        ensures ok { OnOk result
            (StoresTouched record_format (D.state disk.new).now.seen self.old self.new) }
        ensures err { OnErr result
            (StoresSome record_format (D.state disk.new).now.seen self.old self.new) }
        ensures writes { WritesPages self.old (IsErrOf result StoreFault.Device)
            (D.state disk.old) (D.state disk.new) }
    {
        self.pages.store_touched(alloc, disk)
    }

    /// Reads the catalogue that these references point to, with one device call per page. The references may have any
    /// values. The disk stays as it is.
    ///
    /// It asks for no memory for a page before it has checked that the extent lies on the disk and has exactly the
    /// blocks of the length, and for none once it has passed 50,000 records.
    ///
    /// # Errors
    ///
    /// - [`LoadFault::Device`] where the device fails.
    /// - [`LoadFault::Damaged`] where the disk holds no catalogue there: a page is damaged, the
    ///   names do not strictly ascend through all pages, or there are more than 50,000 records.
    /// - [`LoadFault::NoMemory`] where the memory is refused.
    pub fn load<D: Disk>(
        alloc: Global,
        disk: &mut D,
        pages: &[PageRef],
    ) -> Result<Catalogue, LoadFault>
        ensures pages { IfOk result (AreStoredAt pages.now) }

        // Where the device has followed the model:
        ensures found { IfOk result (λ loaded. IsTrue (D.state disk.new).honest
            → HoldsCatalogue pages.now (D.state disk.new).now.seen (items_by_page loaded)) }
        ensures damaged { IsErrOf result LoadFault.Damaged → IsTrue (D.state disk.new).honest
            → HoldsNoCatalogue pages.now (D.state disk.new).now.seen }
        ensures reads { ReadsPages pages.now (IsErrOf result LoadFault.Device)
            (D.state disk.old) (D.state disk.new) }
    {
        pages_hold_once::<Record>();
        let pages = Pages::load(alloc, disk, pages)?;
        if !pages.is_ordered() {
            return Err(LoadFault::Damaged);
        }
        Ok(Catalogue { pages })
    }

    /// Reads the catalogue that these references point to, as [`Catalogue::load`] does, with the help of `beside`, a
    /// held catalogue. If `beside` has a page on the disk with the same entry, that page and its records are shared,
    /// and not read. Any other page takes one device call. The disk stays as it is.
    ///
    /// # Errors
    ///
    /// - [`LoadFault::Device`] where the device fails.
    /// - [`LoadFault::Damaged`] if the disk holds no catalogue there, provided that it holds the stored pages of
    ///   `beside`.
    /// - [`LoadFault::NoMemory`] where the memory is refused.
    pub fn load_beside<D: Disk>(
        alloc: Global,
        disk: &mut D,
        pages: &[PageRef],
        beside: &Catalogue,
    ) -> Result<Catalogue, LoadFault>
        ensures pages { IfOk result (AreStoredAt pages.now) }

        // Where the device has followed the model, and the pages of the catalogue in memory are on it:
        ensures found { IfOk result (λ loaded. IsTrue (D.state disk.new).honest
            → All (Stands record_format (D.state disk.new).now.seen) beside.now
            → HoldsCatalogue pages.now (D.state disk.new).now.seen (items_by_page loaded)) }
        ensures damaged { IsErrOf result LoadFault.Damaged → IsTrue (D.state disk.new).honest
            → All (Stands record_format (D.state disk.new).now.seen) beside.now
            → HoldsNoCatalogue pages.now (D.state disk.new).now.seen }
        ensures reads { ReadsPages (unshared pages.now (stored_refs beside.now))
            (IsErrOf result LoadFault.Device) (D.state disk.old) (D.state disk.new) }
    {
        pages_hold_once::<Record>();
        let found = Pages::load_beside(alloc, disk, pages, &beside.pages)?;
        if found.is_ordered() {
            Ok(Catalogue { pages: found })
        } else {
            Err(LoadFault::Damaged)
        }
    }
}
