//! Entries of pages on the disk.
ghost use Rattle.std.specs.Prelude.{◌≡◌, IsTrue};
ghost use Rattle.std.specs.List.{list_any};
ghost use Rattle.rs_model.specs.Names.{is_ordered};
ghost use Rattle.rs_page.specs.Pages.{items_of, same_page, stored_ref, stored_refs};
ghost use Rattle.rs_pages.specs.Items.{keyed};
ghost use Rattle.rs_pages.specs.Rule.{home};
ghost use Rattle.rs_pages.specs.Entries.{entry_at, is_entry, open_entry};

use crate::making::MOST;
use crate::{Named, Pages};
use rs_page::{Page, PageItem, PageRef, Place};
use rs_record::Name;

impl<T: PageItem> Pages<T> {
    /// Returns whether one of the pages on the disk has this entry. It looks at every page.
    pub fn has_entry(&self, entry: &PageRef) -> bool
        ensures { result ≡ list_any (same_page entry.now) (stored_refs self.now) }
    {
        some_is_at(&self.pages, entry)
    }

    /// Returns the entry of the last page, where it is on the disk and the next item that is appended goes into it.
    pub fn open_entry(&self) -> Option<PageRef>
        ensures { result ≡ open_entry self.now }
    {
        let last = self.pages.len().saturating_sub(1);
        if self.items_at(last).len() < MOST {
            self.entry_at(last)
        } else {
            None
        }
    }

    /// Returns the entry of the page at i, where that page is on the disk.
    fn entry_at(&self, i: usize) -> Option<PageRef>
        ensures { result ≡ entry_at i self.now }
    {
        match self.pages.get(i) {
            Some(page) => entry_of(page),
            None => None,
        }
    }
}

impl<T: Named> Pages<T> {
    /// Returns the entry of the page that an item of this name goes into, where that page is on the
    /// disk.
    pub fn entry_for(&self, name: &Name) -> Option<PageRef>
        requires { IsTrue (is_ordered (keyed T.name (items_of self.now))) }
        ensures { result ≡ entry_at (home T.name name.now self.now) self.now }
    {
        self.entry_at(self.home_of(name))
    }
}

/// Returns the entry of a page, where it is on the disk.
pub(crate) fn entry_of<T: PageItem>(page: &Page<T>) -> Option<PageRef>
    ensures { result ≡ stored_ref page.now.place }
{
    match page.place() {
        Place::Touched | Place::Placed(_) => None,
        Place::Stored(entry) => Some(entry),
    }
}

/// Returns whether a page is on the disk and has this entry.
fn is_at<T: PageItem>(page: &Page<T>, entry: &PageRef) -> bool
    ensures { result ≡ is_entry entry.now (stored_ref page.now.place) }
{
    match entry_of(page) {
        Some(own) => *entry == own,
        None => false,
    }
}

/// Returns whether one of the pages is on the disk and has this entry.
fn some_is_at<T: PageItem>(pages: &[Page<T>], entry: &PageRef) -> bool
    ensures { result ≡ list_any (λ page. is_entry entry.now (stored_ref page.place)) pages.now }
{
    pages.iter().any(|page| is_at(page, entry))
}
