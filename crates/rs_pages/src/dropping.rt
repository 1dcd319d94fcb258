//! A list without its first items.
ghost use Rattle.std.specs.Prelude.{◌≡◌, ◌++◌, ◌<◌, ◌≤◌, length, drop, IfOk, OnOk};
ghost use Rattle.rs_page.specs.Pages.{stored_refs};
ghost use Rattle.rs_pages.specs.Rule.{items_at};
ghost use Rattle.rs_pages.specs.Dropped.{full_pages, dropped_front, front_pages};

use crate::Pages;
use crate::entries::entry_of;
use crate::making::{MOST, copy_into, cut_into_pieces};
use rs_page::{Page, PageItem, PageRef};
use rs_record::{Duplicate, duplicate_all};
use std::alloc::{AllocError, Global};

impl<T: PageItem + Duplicate> Pages<T> {
    /// Returns the list without its first `count` items, which is empty if it has no more. This
    /// list stays.
    ///
    /// Pages that lie whole among these items go. The page in which the cut falls is touched: its
    /// other items are cut into pages of 64, of which the last has the rest. All other pages stay the
    /// same pages.
    ///
    /// # Errors
    ///
    /// [`AllocError`] where the memory is refused.
    pub fn without_front(&self, alloc: Global, count: usize) -> Result<Pages<T>, AllocError>
        ensures { IfOk result (λ next. next ≡ dropped_front count self.now) }
    {
        let (gone, more) = whole_among(&self.pages, count);
        let pages = without_items(alloc, &self.pages[gone..], more)?;
        Pages::of_pages(alloc, pages)
    }

    /// Returns the entries of the pages on the disk that have one of the first `count` items: they
    /// go when these items are dropped.
    ///
    /// # Errors
    ///
    /// [`AllocError`] where the memory is refused.
    pub fn front_entries(&self, alloc: Global, count: usize) -> Result<Vec<PageRef>, AllocError>
        ensures { IfOk result (λ refs. refs.items ≡ stored_refs (front_pages count self.now)) }
    {
        let mut entries = Vec::new(alloc);
        let mut more = count;
        for page in &self.pages {
            if more == 0 {
                return Ok(entries);
            }
            if let Some(entry) = entry_of(page) {
                entries.push(entry)?;
            }
            more = more.saturating_sub(page.items().len());
        }
        Ok(entries)
    }
}

/// Returns the number of pages whose items are all among the first `count` items, and the number of
/// these items in the next page.
fn whole_among<T: PageItem>(pages: &[Page<T>], count: usize) -> (usize, usize)
    ensures within { result.0 ≤ length pages.now }
    ensures dropped { dropped_front count pages.now
        ≡ dropped_front result.1 (drop result.0 pages.now) }
    ensures more { 0 < result.1 → result.1 < length (items_at 0 (drop result.0 pages.now)) }
{
    let mut more = count;
    for (gone, page) in pages.iter().enumerate() {
        let len = page.items().len();
        if more < len {
            return (gone, more);
        }
        more -= len;
    }
    (pages.len(), 0)
}

/// Returns these pages without the first `count` items of the first one, which has more.
fn without_items<T: PageItem + Duplicate>(
    alloc: Global,
    pages: &[Page<T>],
    count: usize,
) -> Result<Vec<Page<T>>, AllocError>
    requires { 0 < count → count < length (items_at 0 pages.now) }
    ensures { IfOk result (λ left. left.items ≡ dropped_front count pages.now) }
{
    let mut left = Vec::with_capacity(alloc, pages.len())?;
    if count == 0 {
        copy_into(alloc, &mut left, pages)?;
        return Ok(left);
    }
    let items = duplicate_all(alloc, &pages[0].items()[count..])?;
    cut_full_into(&mut left, items)?;
    copy_into(alloc, &mut left, &pages[1..])?;
    Ok(left)
}

/// Appends the full pages that these items are cut into.
fn cut_full_into<T: PageItem>(pages: &mut Vec<Page<T>>, items: Vec<T>) -> Result<(), AllocError>
    ensures { OnOk result (pages.new.items ≡ pages.old.items ++ full_pages items.items) }
{
    cut_into_pieces(pages, items, MOST)
}
