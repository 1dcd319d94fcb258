//! A history in memory.

ghost use Rattle.std.specs.Prelude.{◌≡◌, ◌<◌, ◌≤◌, ◌+◌, ◌*◌, ◌++◌, List, [], ◌∷◌, length, drop, map, slice_get, Some, IfOk, IfSome};
ghost use Rattle.rs_record.specs.declared.change.Change.{Change};
ghost use Rattle.rs_time.specs.Moment.{greatest};
ghost use Rattle.rs_model.specs.State.{most_changes};
ghost use Rattle.rs_model.specs.Step.{passed_by};
ghost use Rattle.rs_page.specs.Items.{change_filled};
ghost use Rattle.rs_page.specs.Pages.{placed_extents, stored_refs};
ghost use Rattle.rs_page.specs.SharedPages.{KeepsPages};
ghost use Rattle.rs_pages.specs.Rule.{appended_to};
ghost use Rattle.rs_pages.specs.Dropped.{front_pages, full_pages, TouchesFew};
ghost use Rattle.rs_changes.specs.Filled.{history_filled};
ghost use Rattle.rs_changes.specs.History.{Numbered, AreKept, with_pages, without_parts, changes_of, last_of, IsHistory, EndsUnstored, part_start, part_end};

use rs_fixity::Digests;
use rs_page::PageRef;
use rs_pages::Pages;
use rs_pages::laws::{first_items_are_dropped_as_one, last_items_are_filled, pages_are_one_list};
use rs_record::Change;
use rs_time::Moment;
use std::alloc::{AllocError, Global};
use std::marker::Model;
use std::ops::Range;

/// The changes that a source keeps, earliest first: their moments strictly rise, and there are at most 50,000 of them,
/// in pages. They are divided into parts, and the number of the first kept part is the number of parts dropped before
/// it. Contracts see this number and the list of the pages.
#[derive(Debug, Drop)]
pub struct History {
    pub(crate) first: u64,
    pub(crate) pages: Pages<Change>,
}

impl Model for History {
    ghost use Rattle.rs_changes.specs.History.{Numbered, IsNumbered};

    ghost Value = { Numbered };

    ghost view = { λ h. record { first = h.first; pages = h.pages } };

    ghost invariant = { λ h. IsNumbered (record { first = h.first; pages = h.pages }) };
}

impl History {
    /// Returns a history of no changes, which has no pages and no dropped part.
    pub fn empty(alloc: Global) -> History
        ensures { result ≡ record { first = 0; pages = [] } }
    {
        History {
            first: 0,
            pages: Pages::empty(alloc),
        }
    }

    /// Returns the history of these changes, at most 50,000, whose moments strictly rise: in pages of 64, of which the
    /// last has the rest. All of them are touched. The number of its first part is `first`, at most
    /// 253,402,300,799,999.
    ///
    /// # Errors
    ///
    /// [`AllocError`] where the memory is refused.
    pub fn from_changes(
        alloc: Global,
        first: u64,
        changes: &[Change],
    ) -> Result<History, AllocError>
        requires changes { AreKept changes.now }
        requires number { first ≤ greatest }
        ensures pages { IfOk result
            (λ made. made ≡ record { first = first; pages = full_pages changes.now }) }
        ensures changes { IfOk result (λ made. changes_of made.pages ≡ changes.now) }
        ensures unplaced { IfOk result (λ made. placed_extents made.pages ≡ []) }
        ensures unstored { IfOk result (λ made. stored_refs made.pages ≡ []) }
    {
        let pages = Pages::of_items(alloc, changes)?;
        Ok(History { first, pages })
    }

    /// Returns the number of changes.
    pub fn len(&self) -> usize
        ensures value { result ≡ length (changes_of self.now.pages) }
        ensures lawful { IsHistory self.now.pages }
    {
        self.pages.len()
    }

    /// Returns its pages, to ask for their number, their entries and their places.
    pub fn as_pages(&self) -> &Pages<Change>
        ensures value { result.now ≡ self.now.pages }
        ensures lawful { AreKept (changes_of self.now.pages) }
    {
        &self.pages
    }

    /// Returns the number of the first kept part, which is the number of dropped parts: at most 253,402,300,799,999.
    pub fn first(&self) -> u64
        ensures value { result ≡ self.now.first }
        ensures bound { self.now.first ≤ greatest }
    {
        self.first
    }

    /// Returns the number of changes, from the earliest on, that are not after this moment. It reads at most as many
    /// changes as their number has bits.
    pub fn count_up_to(&self, moment: Moment) -> usize
        ensures { result ≡ passed_by moment (changes_of self.now.pages) }
    {
        let (mut low, mut high) = (0, self.len());
        while low < high {
            let middle = (low + high) / 2;
            if self.at(middle).moment <= moment {
                low = middle + 1;
            } else {
                high = middle;
            }
        }
        low
    }

    /// Returns the change at place `i`, counted from 0 at the earliest. It takes as many steps as the number of pages
    /// has bits.
    pub fn at(&self, i: usize) -> &Change
        requires { i < length (changes_of self.now.pages) }
        ensures { slice_get (changes_of self.now.pages) i ≡ Some result.now }
    {
        self.pages.at(i)
    }

    /// Returns the places of part `k`, counted from 0 at the first kept part: from the place of its first change up to
    /// the place after its last change. Parts have `limit` changes, and only the last part may have fewer. If there is
    /// no part `k`, the range is empty.
    ///
    /// A source has a limit from 2 to 4,000; changes have parts at any other limit too. It takes no memory.
    pub fn part(&self, k: u64, limit: u16) -> Range<usize>
        ensures start { result.start ≡ part_start (length (changes_of self.now.pages)) limit k }
        ensures end { result.end ≡ part_end (length (changes_of self.now.pages)) limit k }
    {
        let len = self.len();
        let start = k.saturating_mul(u64::from(limit)).min(len as u64) as usize;
        let end = (start + usize::from(limit)).min(len);
        start..end
    }

    /// Returns the history with this change at its end, in the last page if that has fewer than 64 changes, else in a
    /// new page. The moment of the change is after the last one. This history stays as it is, and all other pages stay
    /// the same pages.
    ///
    /// # Errors
    ///
    /// [`AllocError`] where the memory is refused.
    pub fn with(&self, alloc: Global, change: Change) -> Result<History, AllocError>
        requires rises { IfSome (last_of (changes_of self.now.pages))
            (λ last. last.moment < «change».moment) }
        requires room { length (changes_of self.now.pages) < most_changes }
        ensures pages { IfOk result
            (λ next. next ≡ with_pages self.now (appended_to «change» self.now.pages)) }
        ensures appended { IfOk result (λ next. changes_of next.pages ≡ changes_of self.now.pages
            ++ «change» ∷ []) }
        ensures kept { IfOk result (λ next. KeepsPages self.now.pages next.pages) }
        ensures unstored { IfOk result (λ next. EndsUnstored next.pages) }
        ensures unplaced { placed_extents self.now.pages ≡ []
            → IfOk result (λ next. placed_extents next.pages ≡ []) }
    {
        pages_are_one_list::<Change>();
        let pages = self.pages.append(alloc, change)?;
        Ok(History {
            first: self.first,
            pages,
        })
    }

    /// Returns the history without its first `count` parts of `limit` changes, all of which it has. Its first number is
    /// greater by `count`, and at most 253,402,300,799,999. This history stays as it is.
    ///
    /// The page in which the cut falls is touched: its other changes are cut into pages of 64, of which the last has
    /// the rest. Pages before it are dropped, and all pages after it stay the same pages.
    ///
    /// # Errors
    ///
    /// [`AllocError`] where the memory is refused.
    pub fn drop_parts(&self, alloc: Global, count: u64, limit: u16) -> Result<History, AllocError>
        requires parts { count * limit ≤ length (changes_of self.now.pages) }
        requires number { self.now.first + count ≤ greatest }
        ensures parts { IfOk result (λ left. left ≡ without_parts count limit self.now) }
        ensures changes { IfOk result
            (λ left. changes_of left.pages ≡ drop (count * limit) (changes_of self.now.pages)) }
        ensures kept { IfOk result (λ left. KeepsPages self.now.pages left.pages) }
        ensures few { IfOk result (λ left. TouchesFew (count * limit) self.now.pages left.pages) }
        ensures unplaced { placed_extents self.now.pages ≡ []
            → IfOk result (λ left. placed_extents left.pages ≡ []) }
    {
        first_items_are_dropped_as_one::<Change>();
        let dropped = self.part(count, limit).start;
        let pages = self.pages.without_front(alloc, dropped)?;
        Ok(History {
            first: self.first + count,
            pages,
        })
    }

    /// Returns the entries of the pages on the disk that [`History::drop_parts`] drops or touches: the pages that have
    /// a change of the first `count` parts, with `limit` changes per part.
    ///
    /// # Errors
    ///
    /// [`AllocError`] where the memory is refused.
    pub fn dropped_entries(
        &self,
        alloc: Global,
        count: u64,
        limit: u16,
    ) -> Result<Vec<PageRef>, AllocError>
        requires { count * limit ≤ length (changes_of self.now.pages) }
        ensures { IfOk result
            (λ refs. refs.items ≡ stored_refs (front_pages (count * limit) self.now.pages)) }
    {
        let dropped = self.part(count, limit).start;
        self.pages.front_entries(alloc, dropped)
    }

    /// Returns a copy of the history, in the same pages.
    ///
    /// # Errors
    ///
    /// [`AllocError`] where the memory is refused.
    pub fn copy(&self, alloc: Global) -> Result<History, AllocError>
        ensures { IfOk result (λ copied. copied ≡ self.now) }
    {
        let pages = self.pages.copy(alloc)?;
        Ok(History {
            first: self.first,
            pages,
        })
    }

    /// Sets the digests of the last change; a deletion, which has no digests, stays as it is. The page of the change is
    /// not stored, as after [`History::with`] appended it. It takes no memory.
    pub fn fill_last(&mut self, digests: Digests)
        requires { EndsUnstored self.old.pages }
        ensures filled { (before : List Change) (last : Change)
            → changes_of self.old.pages ≡ before ++ last ∷ []
            → changes_of self.new.pages ≡ before ++ change_filled digests last ∷ [] }
        ensures places { map (λ page. page.place) self.new.pages
            ≡ map (λ page. page.place) self.old.pages }
        ensures lengths { map (λ page. length page.items) self.new.pages
            ≡ map (λ page. length page.items) self.old.pages }
        ensures pages { self.new ≡ with_pages self.old (history_filled digests self.old.pages) }
    {
        last_items_are_filled::<Change>();
        self.pages.fill_last(digests);
    }

    /// Returns the references to the pages that are on the disk, in their order.
    ///
    /// # Errors
    ///
    /// [`AllocError`] where the memory is refused.
    pub fn pages(&self, alloc: Global) -> Result<Vec<PageRef>, AllocError>
        ensures pages { IfOk result (λ pages. pages.items ≡ stored_refs self.now.pages) }
        ensures lawful { IsHistory self.now.pages }
    {
        self.pages.pages(alloc)
    }
}
