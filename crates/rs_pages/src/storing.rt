//! Pages on the disk.
ghost use Rattle.std.specs.Prelude.{◌≡◌, ◌≤◌, ◌<◌, ◌+◌, ◌++◌, [], length, take, map, slice_get, vec_len, vec_capacity, All, IfOk, IfSome, OnOk, OnErr, IsErrOf};
ghost use Rattle.std.specs.List.{cons_option};
ghost use Rattle.rs_extent.specs.Extents.{AreApart, AreOnDisk};
ghost use Rattle.rs_page.specs.Pages.{IsTouched, placed_extent, placed_extents, stored_ref, stored_refs};
ghost use Rattle.rs_page.specs.Placing.{Places, HasNoPlace};
ghost use Rattle.rs_pages.specs.Rule.{HaveItems};
ghost use Rattle.rs_pages.specs.Storing.{items_by_page, PlacesTouched, StoresTouched, StoresSome, WritesPages};

use crate::Pages;
use rs_disk::Disk;
use rs_extent::{Extent, Used};
use rs_page::{Full, Page, PageItem, PageRef, Place, StoreFault};
use std::alloc::{AllocError, Global};

impl<T: PageItem> Pages<T> {
    /// Gives every touched page the lowest run of free blocks of its size, one page after the
    /// other. It takes no memory.
    ///
    /// # Errors
    ///
    /// [`Full`] where a page has no such run. The pages and the used blocks are unchanged then.
    pub fn place_touched(&mut self, used: &mut Used) -> Result<(), Full>
        ensures ok { OnOk result (PlacesTouched T.format used.old self.old used.new self.new) }
        ensures full { OnErr result (HasNoPlace T.format used.old self.old) }
        ensures used { OnErr result (used.new ≡ used.old) }
        ensures unchanged { OnErr result (self.new ≡ self.old) }
        ensures items { items_by_page self.new ≡ items_by_page self.old }
        ensures stored { map (λ page. stored_ref page.place) self.new
            ≡ map (λ page. stored_ref page.place) self.old }
    {
        place_from(&mut self.pages, 0, used)
    }

    /// Adds the blocks of the placed pages that are not written yet, in the order of the pages, to
    /// a list that has room for one extent per page. It takes no memory.
    pub fn list_placed(&self, extents: &mut Vec<Extent>)
        requires { vec_len extents.old + length self.now ≤ vec_capacity extents.old }
        ensures items { extents.new.items ≡ extents.old.items ++ placed_extents self.now }
        ensures len { vec_len extents.new ≤ vec_len extents.old + length self.now }
        ensures capacity { vec_capacity extents.old ≤ vec_capacity extents.new }
    {
        for page in &self.pages {
            add_placed(extents, page.place());
        }
    }

    /// Writes every page that was given blocks, by one device call a page. Pages that are on the
    /// disk already are not written again.
    ///
    /// No page is touched, and the extents of those that were given blocks lie on the disk and have
    /// no block in common. A read gives the pages from then on; a crash may leave anything in their
    /// blocks until the next sync. On success and on failure, every set of blocks outside these
    /// extents stays as it is, at every moment of the run.
    ///
    /// # Errors
    ///
    /// - [`StoreFault::NoMemory`] where the memory for a page's bytes is refused. Pages before it may
    ///   have been written then.
    /// - [`StoreFault::Device`] where the device fails. The extents may then hold anything.
    ///
    /// After either of them the items are as they were, and every page is as it was, or is written
    /// and stored.
    pub fn store_touched<D: Disk>(&mut self, alloc: Global, disk: &mut D) -> Result<(), StoreFault>
        requires placed { All (λ page. ¬ IsTouched page.place) self.old }
        requires room { AreOnDisk (placed_extents self.old) (D.state disk.old).size }
        requires apart { AreApart (placed_extents self.old) }
        ensures ok { OnOk result
            (StoresTouched T.format (D.state disk.new).now.seen self.old self.new) }
        ensures err { OnErr result
            (StoresSome T.format (D.state disk.new).now.seen self.old self.new) }
        ensures writes { WritesPages self.old (IsErrOf result StoreFault.Device)
            (D.state disk.old) (D.state disk.new) }
    {
        store_all(&mut self.pages, alloc, disk)
    }

    /// Returns the references to the pages that are on the disk, in their order.
    ///
    /// # Errors
    ///
    /// [`AllocError`] where the memory is refused.
    pub fn pages(&self, alloc: Global) -> Result<Vec<PageRef>, AllocError>
        ensures pages { IfOk result (λ pages. pages.items ≡ stored_refs self.now) }
        ensures some { HaveItems self.now }
    {
        let mut pages = Vec::with_capacity(alloc, self.pages.len())?;
        for page in &self.pages {
            if let Place::Stored(stored) = page.place() {
                pages.push(stored)?;
            }
        }
        Ok(pages)
    }
}

/// Gives every touched page from the one at `start` on the lowest run of free blocks of its size,
/// one page after the other. It calls itself once for every touched page.
fn place_from<T: PageItem>(pages: &mut [Page<T>], start: usize, used: &mut Used) -> Result<(), Full>
    requires bound { start ≤ length pages.old }
    requires before { All (λ page. ¬ IsTouched page.place) (take start pages.old) }
    ensures places { OnOk result (Places T.format used.old pages.old used.new pages.new) }
    ensures full { OnErr result (HasNoPlace T.format used.old pages.old) }
    ensures used { OnErr result (used.new ≡ used.old) }
    ensures unchanged { OnErr result (pages.new ≡ pages.old) }
{
    let k = next_touched(pages, start);
    if k == pages.len() {
        return Ok(());
    }
    pages[k].place_in(used)?;
    if let Err(full) = place_from(pages, k + 1, used) {
        pages[k].take_back(used);
        return Err(full);
    }
    Ok(())
}

/// Returns the place of the first touched page from `start` on, or the number of pages if none is
/// touched.
fn next_touched<T: PageItem>(pages: &[Page<T>], start: usize) -> usize
    requires bound { start ≤ length pages.now }
    requires before { All (λ page. ¬ IsTouched page.place) (take start pages.now) }
    ensures start { start ≤ result }
    ensures bound { result ≤ length pages.now }
    ensures before { All (λ page. ¬ IsTouched page.place) (take result pages.now) }
    ensures touched { IfSome (slice_get pages.now result) (λ page. IsTouched page.place) }
{
    for k in start..pages.len() {
        if matches!(pages[k].place(), Place::Touched) {
            return k;
        }
    }
    pages.len()
}

/// Adds the blocks of a page that was placed and is not written yet.
fn add_placed(extents: &mut Vec<Extent>, place: Place)
    requires { vec_len extents.old < vec_capacity extents.old }
    ensures items { extents.new.items ≡ extents.old.items ++ cons_option (placed_extent place) [] }
    ensures len { vec_len extents.new ≤ vec_len extents.old + 1 }
    ensures capacity { vec_capacity extents.old ≤ vec_capacity extents.new }
{
    if let Place::Placed(extent) = place {
        extents.push(extent).unwrap();
    }
}

/// Writes every page that was given blocks, one page after the other.
fn store_all<T: PageItem, D: Disk>(
    pages: &mut [Page<T>],
    alloc: Global,
    disk: &mut D,
) -> Result<(), StoreFault>
    requires placed { All (λ page. ¬ IsTouched page.place) pages.old }
    requires room { AreOnDisk (placed_extents pages.old) (D.state disk.old).size }
    requires apart { AreApart (placed_extents pages.old) }
    ensures ok { OnOk result
        (StoresTouched T.format (D.state disk.new).now.seen pages.old pages.new) }
    ensures err { OnErr result
        (StoresSome T.format (D.state disk.new).now.seen pages.old pages.new) }
    ensures writes { WritesPages pages.old (IsErrOf result StoreFault.Device)
        (D.state disk.old) (D.state disk.new) }
{
    for page in pages.iter_mut() {
        page.store(alloc, disk)?;
    }
    Ok(())
}
