//! Pages that are read.
ghost use Rattle.std.specs.Prelude.{All, IfOk, IsErrOf, IsTrue};
ghost use Rattle.rs_page.specs.DiskPages.{Stands};
ghost use Rattle.rs_page.specs.Pages.{stored_refs};
ghost use Rattle.rs_pages.specs.Rule.{HaveItems};
ghost use Rattle.rs_pages.specs.Storing.{items_by_page, AreStoredAt, HoldItems, HoldNoItems, ReadsPages, unshared};

use crate::Pages;
use crate::beside::load_all_beside;
use rs_body::LoadFault;
use rs_disk::Disk;
use rs_page::laws::pages_hold_once;
use rs_page::{Page, PageItem, PageRef};
use rs_record::{Duplicate, MOST_ITEMS};
use std::alloc::Global;

impl<T: PageItem> Pages<T> {
    /// Reads the pages that these references point to, by one device call a page. The references
    /// may have any values. The disk stays as it is.
    ///
    /// It asks for no memory for a page before it has checked that the extent lies on the disk and
    /// has exactly the blocks of the length, and for none once it has passed 50,000 items.
    ///
    /// # Errors
    ///
    /// - [`LoadFault::Device`] where the device fails.
    /// - [`LoadFault::Damaged`] where the disk holds no such page at one of them, or more than
    ///   50,000 items in all.
    /// - [`LoadFault::NoMemory`] where the memory is refused.
    pub fn load<D: Disk>(
        alloc: Global,
        disk: &mut D,
        pages: &[PageRef],
    ) -> Result<Pages<T>, LoadFault>
        ensures pages { IfOk result (AreStoredAt pages.now) }

        // Where the device has followed the model:
        ensures found { IfOk result (λ loaded. IsTrue (D.state disk.new).honest
            → HoldItems T.format pages.now (D.state disk.new).now.seen (items_by_page loaded)) }
        ensures damaged { IsErrOf result LoadFault.Damaged → IsTrue (D.state disk.new).honest
            → HoldNoItems T.format pages.now (D.state disk.new).now.seen }
        ensures reads { ReadsPages pages.now (IsErrOf result LoadFault.Device)
            (D.state disk.old) (D.state disk.new) }
    {
        let loaded = load_all(alloc, disk, pages)?;
        Ok(Pages::of_pages(alloc, loaded)?)
    }
}

impl<T: PageItem + Duplicate> Pages<T> {
    /// Reads the pages that these references point to, as [`Pages::load`] does, but takes pages
    /// from a list in memory where it can: if a page of that list has the entry of a page to read,
    /// it takes that page, whose items the two share, and makes no device call for it. Every other
    /// page takes one device call. The disk stays as it is.
    ///
    /// It sorts the entries of that list once, and looks up every reference by binary search.
    ///
    /// # Errors
    ///
    /// - [`LoadFault::Device`] where the device fails.
    /// - [`LoadFault::Damaged`] where the disk holds no such page at one of them, or more than
    ///   50,000 items in all, if the pages of the list in memory are on it.
    /// - [`LoadFault::NoMemory`] where the memory is refused.
    pub fn load_beside<D: Disk>(
        alloc: Global,
        disk: &mut D,
        pages: &[PageRef],
        beside: &Pages<T>,
    ) -> Result<Pages<T>, LoadFault>
        ensures pages { IfOk result (AreStoredAt pages.now) }

        // Where the device has followed the model, and the pages of the list in memory are on it:
        ensures found { IfOk result (λ loaded. IsTrue (D.state disk.new).honest
            → All (Stands T.format (D.state disk.new).now.seen) beside.now
            → HoldItems T.format pages.now (D.state disk.new).now.seen (items_by_page loaded)) }
        ensures damaged { IsErrOf result LoadFault.Damaged → IsTrue (D.state disk.new).honest
            → All (Stands T.format (D.state disk.new).now.seen) beside.now
            → HoldNoItems T.format pages.now (D.state disk.new).now.seen }
        ensures reads { ReadsPages (unshared pages.now (stored_refs beside.now))
            (IsErrOf result LoadFault.Device) (D.state disk.old) (D.state disk.new) }
    {
        let found = load_all_beside(alloc, disk, pages, &beside.pages)?;
        Ok(Pages::of_pages(alloc, found)?)
    }
}

/// Reads the pages that these references point to, one after the other.
fn load_all<T: PageItem, D: Disk>(
    alloc: Global,
    disk: &mut D,
    pages: &[PageRef],
) -> Result<Vec<Page<T>>, LoadFault>
    ensures pages { IfOk result (λ loaded. AreStoredAt pages.now loaded.items) }
    ensures some { IfOk result (λ loaded. HaveItems loaded.items) }
    ensures found { IfOk result (λ loaded. IsTrue (D.state disk.new).honest
        → HoldItems T.format pages.now (D.state disk.new).now.seen (items_by_page loaded.items)) }
    ensures damaged { IsErrOf result LoadFault.Damaged → IsTrue (D.state disk.new).honest
        → HoldNoItems T.format pages.now (D.state disk.new).now.seen }
    ensures reads { ReadsPages pages.now (IsErrOf result LoadFault.Device)
        (D.state disk.old) (D.state disk.new) }
{
    pages_hold_once::<T>();
    let mut loaded = Vec::new(alloc);
    let mut room = MOST_ITEMS;
    for page in pages {
        let page = Page::load(alloc, disk, page)?;
        let Some(left) = room.checked_sub(page.items().len()) else {
            return Err(LoadFault::Damaged);
        };
        room = left;
        loaded.push(page).map_err(|_| LoadFault::NoMemory)?;
    }
    Ok(loaded)
}
