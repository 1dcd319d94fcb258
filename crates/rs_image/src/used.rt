//! Marking the blocks that a root reaches in the set of the used blocks of its disk.
ghost use Rattle.std.specs.Prelude.{◌≡◌, ◌↔◌, ◌≤◌, ◌<◌, ℕ, [], ◌∷◌, ◌++◌, true, false, IfOk, IfSome, IfNone, IsTrue, length};
ghost use Rattle.std.specs.List.{list_any};
ghost use Rattle.std.specs.List.Sorted.{IsSorted};
ghost use Rattle.rs_extent.specs.Blocks.{is_used};
ghost use Rattle.rs_extent.specs.Extents.{AreApart, AreTaken, CanTake};
ghost use Rattle.rs_page.specs.Pages.{same_page, extents_of, stored_refs};
ghost use Rattle.rs_catalogue.specs.Catalogue.{records_of};
ghost use Rattle.rs_pages.specs.Storing.{unshared};
ghost use Rattle.rs_image.specs.Reach.{blocks_of_disk, bodies_of, reach, is_kept, AreInside};
ghost use Rattle.rs_image.specs.Rooted.{AreUsed};

use crate::{Contents, Rooted};
use rs_catalogue::Catalogue;
use rs_commit::Root;
use rs_extent::{BLOCK_SIZE, Extent, Used};
use rs_page::PageRef;
use std::alloc::{AllocError, Global};

/// The greatest number of usable blocks of a disk.
const MOST_BLOCKS: u64 = 8_388_608;

/// Returns the blocks of a disk that are in use: those of the slots, and those that the root
/// reaches. All others are free.
///
/// It takes time for every record and for every block that the root reaches, for sorting the
/// entries of the catalogue's pages, and for searching the published pages among them. It asks for
/// memory of one bit a block, and for the page entries.
///
/// # Errors
///
/// [`AllocError`] where the memory is refused.
pub fn used_of(alloc: Global, rooted: &Rooted<'_>) -> Result<Used, AllocError>
    ensures { IfOk result (AreUsed rooted.now) }
{
    let contents = rooted.contents();
    let reached = reached(alloc, rooted.size(), rooted.root(), contents)?;
    Ok(reached.unwrap())
}

/// Returns the blocks of the slots and those that the root reaches, on a disk of `size` bytes.
/// Returns `None` where a part that the root reaches does not lie on the disk after the slots, or
/// shares a block with another part that it reaches.
///
/// The root and the lists may hold anything.
///
/// # Errors
///
/// [`AllocError`] where the memory is refused.
pub(crate) fn reached(
    alloc: Global,
    size: u64,
    root: &Root,
    contents: &Contents,
) -> Result<Option<Used>, AllocError>
    requires { 1024 ≤ size }
    ensures blocks { IfOk result
        (λ found. IfSome found (λ used. length used ≡ blocks_of_disk size)) }
    ensures exact { IfOk result (λ found. IfSome found (λ used. (b : ℕ)
        → b < blocks_of_disk size
        → is_used used b ≡ is_kept root.now contents.now b)) }
    ensures apart { IfOk result
        (λ found. IfSome found (λ _. AreApart (reach root.now contents.now))) }
    ensures inside { IfOk result
        (λ found. IfSome found (λ _. AreInside size (reach root.now contents.now))) }
    ensures none { IfOk result (λ found. IfNone found (AreApart (reach root.now contents.now)
        → AreInside size (reach root.now contents.now)
        → ⊥)) }
{
    let mut used = Used::new(alloc, block_count(size))?;
    if take_reached(alloc, &mut used, root, contents)? {
        Ok(Some(used))
    } else {
        Ok(None)
    }
}

/// Returns whether no two of these pages share a block. All of them lie after the slots of a disk
/// of `size` bytes.
///
/// # Errors
///
/// [`AllocError`] where the memory is refused.
pub(crate) fn are_apart(alloc: Global, size: u64, pages: &[PageRef]) -> Result<bool, AllocError>
    requires room { 1024 ≤ size }
    requires inside { AreInside size (extents_of pages.now) }
    ensures { IfOk result (λ apart. IsTrue apart ↔ AreApart (extents_of pages.now)) }
{
    let mut used = Used::new(alloc, block_count(size))?;
    Ok(take_pages(&mut used, pages))
}

/// Returns the number of usable blocks of a disk of `size` bytes: whole ones, and at most
/// 8,388,608.
pub(crate) fn block_count(size: u64) -> u32
    ensures { result ≡ blocks_of_disk size }
{
    (size / BLOCK_SIZE as u64).min(MOST_BLOCKS) as u32
}

/// Takes all extents that a root reaches, and stops at an extent that is not free. Returns whether
/// it took all.
fn take_reached(
    alloc: Global,
    used: &mut Used,
    root: &Root,
    contents: &Contents,
) -> Result<bool, AllocError>
    ensures taken { IfOk result (λ all. all ≡ true
        → AreTaken used.old used.new (reach root.now contents.now)) }
    ensures refused { IfOk result (λ all. all ≡ false
        → CanTake used.old (reach root.now contents.now)
        → ⊥) }
{
    let pages = reached_pages(alloc, contents)?;
    if !take_bodies(used, &contents.catalogue) {
        return Ok(false);
    }
    if !take_pages(used, &pages) {
        return Ok(false);
    }
    Ok(take(used, root.directory))
}

/// Returns the published pages that are not also catalogue pages, in the order of the publication.
///
/// It sorts the catalogue's pages once, and finds the published pages among them by binary search.
/// It asks for the memory of three lists of page entries.
///
/// # Errors
///
/// [`AllocError`] where the memory is refused.
pub fn unshared_pages(alloc: Global, contents: &Contents) -> Result<Vec<PageRef>, AllocError>
    ensures { IfOk result (λ pages. pages.items
        ≡ unshared (stored_refs contents.now.published) (stored_refs contents.now.catalogue)) }
{
    let published = contents.published.pages(alloc)?;
    let mut sorted = contents.catalogue.pages(alloc)?;
    sorted.sort_unstable();
    let mut pages = Vec::new(alloc);
    for page in &published {
        if !is_among(page, &sorted) {
            pages.push(*page)?;
        }
    }
    Ok(pages)
}

/// Returns the pages that a root reaches: a published page that is also a catalogue page counts
/// once.
fn reached_pages(alloc: Global, contents: &Contents) -> Result<Vec<PageRef>, AllocError>
    ensures { IfOk result (λ pages. pages.items ≡ stored_refs contents.now.catalogue
        ++ stored_refs contents.now.history.pages
        ++ unshared (stored_refs contents.now.published) (stored_refs contents.now.catalogue)) }
{
    let mut pages = contents.catalogue.pages(alloc)?;
    let history = contents.history.pages(alloc)?;
    pages.extend_from_slice(&history)?;
    let unshared = unshared_pages(alloc, contents)?;
    pages.extend_from_slice(&unshared)?;
    Ok(pages)
}

/// Takes an extent, if all its blocks are on the disk and free. Returns whether it took it.
fn take(used: &mut Used, extent: Extent) -> bool
    ensures taken { result ≡ true → AreTaken used.old used.new (extent ∷ []) }
    ensures refused { result ≡ false → CanTake used.old (extent ∷ []) → ⊥ }
{
    let is_free = used.is_free(extent);
    if is_free {
        used.take(extent);
    }
    is_free
}

/// Takes the bodies of a catalogue's records, and stops at one that is not free. Returns whether it
/// took all.
fn take_bodies(used: &mut Used, catalogue: &Catalogue) -> bool
    ensures taken { result ≡ true
        → AreTaken used.old used.new (bodies_of (records_of catalogue.now)) }
    ensures refused { result ≡ false → CanTake used.old (bodies_of (records_of catalogue.now)) → ⊥ }
{
    let mut i = catalogue.len();
    while i > 0 {
        i -= 1;
        if !take(used, catalogue.at(i).extent) {
            return false;
        }
    }
    true
}

/// Takes pages, and stops at one that is not free. Returns whether it took all.
fn take_pages(used: &mut Used, pages: &[PageRef]) -> bool
    ensures taken { result ≡ true → AreTaken used.old used.new (extents_of pages.now) }
    ensures refused { result ≡ false → CanTake used.old (extents_of pages.now) → ⊥ }
{
    let mut i = pages.len();
    while i > 0 {
        i -= 1;
        if !take(used, pages[i].extent) {
            return false;
        }
    }
    true
}

/// Returns whether a page is one of these pages, which are sorted.
fn is_among(page: &PageRef, sorted: &[PageRef]) -> bool
    requires { IsSorted ⟦<PageRef as Ord>⟧.cmp sorted.now }
    ensures { result ≡ list_any (same_page page.now) sorted.now }
{
    sorted.binary_search(page).is_ok()
}
