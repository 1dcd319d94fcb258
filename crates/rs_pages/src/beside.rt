//! Pages that are read from the disk, or taken from a list in memory.
ghost use Rattle.std.specs.Prelude.{◌≡◌, [], ◌∷◌, false, map, All, Some, IfOk, IfSome, IsNone, IsErrOf, IsTrue};
ghost use Rattle.std.specs.List.{list_any, Contains};
ghost use Rattle.std.specs.List.Sorted.{IsSortedByKey};
ghost use Rattle.rs_page.specs.DiskPages.{IsPage, HoldsNoPage, Stands};
ghost use Rattle.rs_page.specs.Pages.{same_page, stored_ref, stored_refs};
ghost use Rattle.rs_pages.specs.Beside.{AreEntries};
ghost use Rattle.rs_pages.specs.Rule.{HaveItems};
ghost use Rattle.rs_pages.specs.Storing.{items_by_page, AreStoredAt, HoldItems, HoldNoItems, ReadsPages, unshared};

use crate::entries::entry_of;
use rs_body::LoadFault;
use rs_disk::Disk;
use rs_page::laws::pages_hold_once;
use rs_page::{Page, PageItem, PageRef};
use rs_record::{Duplicate, MOST_ITEMS};
use std::alloc::{AllocError, Global};

/// The entry of a page on the disk, and the place of the page in its list.
#[derive(Clone, Copy, Debug)]
struct EntryAt {
    entry: PageRef,
    place: usize,
}

/// Returns the entries of the pages on the disk, sorted.
fn sorted_entries<T: PageItem>(alloc: Global, pages: &[Page<T>]) -> Result<Vec<EntryAt>, AllocError>
    ensures sorted { IfOk result
        (λ sorted. IsSortedByKey (λ at. at.entry) ⟦<PageRef as Ord>⟧.cmp sorted.items) }
    ensures entries { IfOk result (λ sorted. AreEntries pages.now sorted.items) }
{
    let mut entries = entries_of(alloc, pages)?;
    entries.sort_unstable_by_key(|at| at.entry);
    Ok(entries)
}

/// Returns the entries of the pages on the disk, in their order.
fn entries_of<T: PageItem>(alloc: Global, pages: &[Page<T>]) -> Result<Vec<EntryAt>, AllocError>
    ensures { IfOk result (λ entries. AreEntries pages.now entries.items) }
{
    let mut entries = Vec::with_capacity(alloc, pages.len())?;
    for place in 0..pages.len() {
        if let Some(entry) = entry_of(&pages[place]) {
            entries.push(EntryAt { entry, place })?;
        }
    }
    Ok(entries)
}

/// Returns the page on the disk that has this entry, if there is one. It takes as many steps as the
/// number of entries has bits.
fn page_of_entry<'a, T: PageItem>(
    pages: &'a [Page<T>],
    sorted: &[EntryAt],
    entry: &PageRef,
) -> Option<&'a Page<T>>
    requires sorted { IsSortedByKey (λ at. at.entry) ⟦<PageRef as Ord>⟧.cmp sorted.now }
    requires entries { AreEntries pages.now sorted.now }
    ensures entry { IfSome result (λ page. stored_ref page.now.place ≡ Some entry.now) }
    ensures among { IfSome result (λ page. Contains pages.now page.now) }
    ensures none { IsNone result → list_any (same_page entry.now) (stored_refs pages.now) ≡ false }
{
    let place = place_of_entry(sorted, entry)?;
    Some(&pages[place])
}

/// Returns the place of the page with this entry, if the entries have it.
fn place_of_entry(sorted: &[EntryAt], entry: &PageRef) -> Option<usize>
    requires { IsSortedByKey (λ at. at.entry) ⟦<PageRef as Ord>⟧.cmp sorted.now }
    ensures some { IfSome result
        (λ place. Contains sorted.now (record { entry = entry.now; place = place })) }
    ensures none { IsNone result
        → list_any (same_page entry.now) (map (λ at. at.entry) sorted.now) ≡ false }
{
    match sorted.binary_search_by_key(entry, |at| at.entry) {
        Ok(found) => Some(sorted[found].place),
        Err(_) => None,
    }
}

/// Reads the pages that these references point to, one after the other, but takes those of this list
/// from it.
pub(crate) fn load_all_beside<T: PageItem + Duplicate, D: Disk>(
    alloc: Global,
    disk: &mut D,
    pages: &[PageRef],
    beside: &[Page<T>],
) -> Result<Vec<Page<T>>, LoadFault>
    ensures pages { IfOk result (λ loaded. AreStoredAt pages.now loaded.items) }
    ensures some { IfOk result (λ loaded. HaveItems loaded.items) }
    ensures found { IfOk result (λ loaded. IsTrue (D.state disk.new).honest
        → All (Stands T.format (D.state disk.new).now.seen) beside.now
        → HoldItems T.format pages.now (D.state disk.new).now.seen (items_by_page loaded.items)) }
    ensures damaged { IsErrOf result LoadFault.Damaged → IsTrue (D.state disk.new).honest
        → All (Stands T.format (D.state disk.new).now.seen) beside.now
        → HoldNoItems T.format pages.now (D.state disk.new).now.seen }
    ensures reads { ReadsPages (unshared pages.now (stored_refs beside.now))
        (IsErrOf result LoadFault.Device) (D.state disk.old) (D.state disk.new) }
{
    pages_hold_once::<T>();
    let sorted = sorted_entries(alloc, beside)?;
    let mut loaded = Vec::new(alloc);
    let mut room = MOST_ITEMS;
    for page in pages {
        let page = load_one_beside(alloc, disk, page, beside, &sorted)?;
        let Some(left) = room.checked_sub(page.items().len()) else {
            return Err(LoadFault::Damaged);
        };
        room = left;
        loaded.push(page).map_err(|_| LoadFault::NoMemory)?;
    }
    Ok(loaded)
}

/// Returns the page that a reference points to: the one of this list, or else the one on the disk.
fn load_one_beside<T: PageItem + Duplicate, D: Disk>(
    alloc: Global,
    disk: &mut D,
    page: &PageRef,
    beside: &[Page<T>],
    sorted: &[EntryAt],
) -> Result<Page<T>, LoadFault>
    requires sorted { IsSortedByKey (λ at. at.entry) ⟦<PageRef as Ord>⟧.cmp sorted.now }
    requires entries { AreEntries beside.now sorted.now }
    ensures entry { IfOk result (λ loaded. stored_ref loaded.place ≡ Some page.now) }
    ensures found { IfOk result (λ loaded. IsTrue (D.state disk.new).honest
        → All (Stands T.format (D.state disk.new).now.seen) beside.now
        → IsPage T.format page.now (D.state disk.new).now.seen loaded.items) }
    ensures damaged { IsErrOf result LoadFault.Damaged
        → IsTrue (D.state disk.new).honest
        → HoldsNoPage T.format page.now (D.state disk.new).now.seen }
    ensures reads { ReadsPages (unshared (page.now ∷ []) (stored_refs beside.now))
        (IsErrOf result LoadFault.Device) (D.state disk.old) (D.state disk.new) }
{
    match page_of_entry(beside, sorted, page) {
        Some(held) => Ok(held.copy(alloc)?),
        None => Page::load(alloc, disk, page),
    }
}
