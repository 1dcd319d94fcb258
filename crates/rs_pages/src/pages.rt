//! A list in pages.
ghost use Rattle.std.specs.Prelude.{◌≡◌, ◌↔◌, ◌<◌, ◌≤◌, ◌+◌, ◌-◌, [], length, drop, slice_get, Some, IfOk, IsTrue};
ghost use Rattle.std.specs.Option.{option_copied};
ghost use Rattle.rs_model.specs.Names.{value_of, is_ordered};
ghost use Rattle.rs_page.specs.Pages.{items_of, placed_extents, stored_refs};
ghost use Rattle.rs_pages.specs.Dropped.{full_pages};
ghost use Rattle.rs_pages.specs.Items.{keyed};
ghost use Rattle.rs_pages.specs.Rule.{HaveItems, items_at, with_page, begins_by, home, bound_in, unbound_in, appended_to};

use crate::Named;
use crate::making::{MOST, copy_in_pages, copy_into, cut_into, spliced};
use crate::within::{place_of, with_item, without_place};
use rs_page::{Page, PageItem};
use rs_record::{Duplicate, Name, duplicate_all};
use std::alloc::{AllocError, Global};
use std::marker::Model;

/// A list in pages, none of which is empty. Contracts see the list of the pages.
///
/// It stays: a call that adds or takes out an item makes a new list. At most one page is touched by
/// that, and all others stay the same pages, which share their items with the old list where they
/// are on the disk.
#[derive(Debug, Drop)]
pub struct Pages<T: PageItem> {
    pub(crate) pages: Vec<Page<T>>,
    // The number of items before every page, and of all items.
    starts: Vec<usize>,
    len: usize,
}

impl<T: PageItem> Model for Pages<T> {
    ghost use Rattle.std.specs.Prelude.{List};
    ghost use Rattle.rs_page.specs.Pages.{Page};
    ghost use Rattle.rs_pages.specs.Starts.{AreCounted};

    ghost Value = { List (Page T) };

    ghost view = { λ p. p.pages.items };

    ghost invariant = { λ p. AreCounted p.pages.items p.starts.items p.len };
}

impl<T: PageItem> Pages<T> {
    /// Returns the list without pages.
    pub fn empty(alloc: Global) -> Pages<T>
        ensures { result ≡ [] }
    {
        Pages {
            pages: Vec::new(alloc),
            starts: Vec::new(alloc),
            len: 0,
        }
    }

    /// Returns the number of items.
    pub fn len(&self) -> usize
        ensures value { result ≡ length (items_of self.now) }
        ensures some { HaveItems self.now }
    {
        self.len
    }

    /// Returns the number of pages.
    pub fn page_count(&self) -> usize
        ensures value { result ≡ length self.now }
        ensures some { HaveItems self.now }
    {
        self.pages.len()
    }

    /// Returns the item at place `i`, counted from 0. It takes as many steps as the number of pages has bits.
    pub fn at(&self, i: usize) -> &T
        requires { i < length (items_of self.now) }
        ensures { slice_get (items_of self.now) i ≡ Some result.now }
    {
        let (k, start) = self.page_of(i);
        &self.items_at(k)[i - start]
    }

    /// Returns the page of the item at place `i`, and the number of items before that page.
    fn page_of(&self, i: usize) -> (usize, usize)
        requires { i < length (items_of self.now) }
        ensures start { result.1 ≤ i }
        ensures item { slice_get (items_of self.now) i
            ≡ slice_get (items_at result.0 self.now) (i - result.1) }
    {
        let begun = self.starts.partition_point(|start| *start <= i);
        let k = begun - 1;
        (k, self.starts[k])
    }

    /// Returns a list of these pages.
    pub(crate) fn of_pages(alloc: Global, pages: Vec<Page<T>>) -> Result<Pages<T>, AllocError>
        requires { HaveItems pages.items }
        ensures { IfOk result (λ next. next ≡ pages.items) }
    {
        let mut starts = Vec::with_capacity(alloc, pages.len())?;
        let mut len = 0usize;
        for page in &pages {
            starts.push(len)?;
            len = len.checked_add(page.items().len()).ok_or(AllocError)?;
        }
        Ok(Pages { pages, starts, len })
    }

    /// Returns the items of the page at i.
    pub(crate) fn items_at(&self, i: usize) -> &[T]
        ensures { result.now ≡ items_at i self.now }
    {
        match self.pages.get(i) {
            Some(page) => page.items(),
            None => &[],
        }
    }

    /// Returns the pages after the one at i.
    fn after(&self, i: usize) -> &[Page<T>]
        ensures { result.now ≡ drop (i + 1) self.now }
    {
        if i < self.pages.len() {
            &self.pages[i + 1..]
        } else {
            &[]
        }
    }
}

impl<T: PageItem + Duplicate> Pages<T> {
    /// Returns the list of copies of these items, in touched pages of 64, of which the last has the
    /// rest.
    ///
    /// # Errors
    ///
    /// [`AllocError`] where the memory is refused.
    pub fn of_items(alloc: Global, items: &[T]) -> Result<Pages<T>, AllocError>
        ensures pages { IfOk result (λ made. made ≡ full_pages items.now) }
        ensures items { IfOk result (λ made. items_of made ≡ items.now) }
        ensures unplaced { IfOk result (λ made. placed_extents made ≡ []) }
        ensures unstored { IfOk result (λ made. stored_refs made ≡ []) }
    {
        let mut pages = Vec::new(alloc);
        copy_in_pages(alloc, &mut pages, items)?;
        Pages::of_pages(alloc, pages)
    }

    /// Returns a copy of the list, in the same pages.
    ///
    /// # Errors
    ///
    /// [`AllocError`] where the memory is refused.
    pub fn copy(&self, alloc: Global) -> Result<Pages<T>, AllocError>
        ensures { IfOk result (λ copied. copied ≡ self.now) }
    {
        let mut pages = Vec::with_capacity(alloc, self.pages.len())?;
        copy_into(alloc, &mut pages, &self.pages)?;
        Pages::of_pages(alloc, pages)
    }

    /// Returns the list with these items in place of the page at `i`.
    fn with_page(&self, alloc: Global, i: usize, items: Vec<T>) -> Result<Pages<T>, AllocError>
        requires { i ≤ length self.now }
        ensures { IfOk result (λ next. next ≡ with_page i items.items self.now) }
    {
        let pages = spliced(alloc, &self.pages[..i], items, self.after(i))?;
        Pages::of_pages(alloc, pages)
    }

    /// Returns the list with this item at its end: in the last page where that has fewer than 64 items, else in a new
    /// page. This list stays.
    ///
    /// # Errors
    ///
    /// [`AllocError`] where the memory is refused.
    pub fn append(&self, alloc: Global, item: T) -> Result<Pages<T>, AllocError>
        ensures { IfOk result (λ next. next ≡ appended_to item self.now) }
    {
        let last = self.pages.len().saturating_sub(1);
        let items = self.items_at(last);
        if items.len() < MOST {
            let mut longer = duplicate_all(alloc, items)?;
            longer.push(item)?;
            return self.with_page(alloc, last, longer);
        }
        let mut pages = Vec::with_capacity(alloc, self.pages.len())?;
        copy_into(alloc, &mut pages, &self.pages)?;
        let mut alone = Vec::new(alloc);
        alone.push(item)?;
        cut_into(&mut pages, alone)?;
        Pages::of_pages(alloc, pages)
    }
}

impl<T: Named> Pages<T> {
    /// Returns the page where the name goes.
    pub(crate) fn home_of(&self, name: &Name) -> usize
        requires { IsTrue (is_ordered (keyed T.name (items_of self.now))) }
        ensures value { result ≡ home T.name name.now self.now }
        ensures bound { result ≤ length self.now }
    {
        let begun = self.pages.partition_point(|page| begins_by(page, name));
        begun.saturating_sub(1)
    }

    /// Returns the item of a name, if there is one.
    pub fn get(&self, name: &Name) -> Option<&T>
        requires { IsTrue (is_ordered (keyed T.name (items_of self.now))) }
        ensures { option_copied result ≡ value_of name.now (keyed T.name (items_of self.now)) }
    {
        let items = self.items_at(self.home_of(name));
        match place_of(items, name) {
            Ok(i) => Some(&items[i]),
            Err(_) => None,
        }
    }

    /// Returns whether the names strictly ascend through all pages.
    pub fn is_ordered(&self) -> bool
        ensures { IsTrue result ↔ IsTrue (is_ordered (keyed T.name (items_of self.now))) }
    {
        for i in 1..self.len() {
            if !self.at(i - 1).name().compare(self.at(i).name()).is_lt() {
                return false;
            }
        }
        true
    }

    /// Returns the list with this item bound to its name; it replaces the item that had the name.
    /// This list stays.
    ///
    /// The item goes into the last page whose first name is not above its own, or else into the
    /// first page. That page is touched: if it has more than 64 items, pages of 32 are cut from its
    /// front until at most 64 items are left.
    ///
    /// # Errors
    ///
    /// [`AllocError`] where the memory is refused.
    pub fn with(&self, alloc: Global, item: T) -> Result<Pages<T>, AllocError>
        requires { IsTrue (is_ordered (keyed T.name (items_of self.now))) }
        ensures { IfOk result (λ next. next ≡ bound_in T.name item self.now) }
    {
        let home = self.home_of(item.name());
        let items = with_item(alloc, self.items_at(home), item)?;
        self.with_page(alloc, home, items)
    }

    /// Returns the list without the item of this name; the same list if no item has it. This list
    /// stays. A page that is left empty goes, and pages are never joined.
    ///
    /// # Errors
    ///
    /// [`AllocError`] where the memory is refused.
    pub fn without(&self, alloc: Global, name: &Name) -> Result<Pages<T>, AllocError>
        requires { IsTrue (is_ordered (keyed T.name (items_of self.now))) }
        ensures { IfOk result (λ next. next ≡ unbound_in T.name name.now self.now) }
    {
        let home = self.home_of(name);
        let items = self.items_at(home);
        match place_of(items, name) {
            Ok(place) => {
                let left = without_place(alloc, items, place)?;
                self.with_page(alloc, home, left)
            }
            Err(_) => self.copy(alloc),
        }
    }
}

/// Returns whether the first name of the page is not above this one.
fn begins_by<T: Named>(page: &Page<T>, name: &Name) -> bool
    ensures { result ≡ begins_by T.name name.now page.now.items }
{
    !name.compare(page.items()[0].name()).is_lt()
}
