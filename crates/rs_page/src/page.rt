//! A page of a list.
pub(crate) mod load;
pub(crate) mod store;

ghost use Rattle.std.specs.Prelude.{ℕ, ◌≡◌, ◌<◌, ◌≤◌, length, slice_get, slice_set, IfOk, IfSome, OnOk, OnErr};
ghost use Rattle.rs_extent.specs.Blocks.{IsFreeRun, IsTaken};
ghost use Rattle.rs_page.specs.Pages.{placed_extent, stored_ref};
ghost use Rattle.rs_page.specs.Placing.{PlacesOne, PageHasNoRun, place_taken_back, GivesBack};

use crate::format::page_size;
use crate::shared::SharedItems;
use crate::{Fill, PageItem, Place};
use rs_body::blocks_for;
use rs_extent::Used;
use rs_fixity::Digests;
use rs_record::{Duplicate, MOST_ITEMS};
use std::alloc::{AllocError, Global};
use std::marker::Model;
use thiserror::Error;

/// No run of free blocks is long enough for a page.
#[derive(Clone, Copy, Debug, PartialEq, Eq, Error)]
#[error("no run of free blocks is long enough")]
pub struct Full;

/// A page of a list: its items, in their order, and its place.
///
/// It has 1 to [`MOST_ITEMS`] items.
#[derive(Debug, Drop)]
pub struct Page<T: PageItem> {
    items: SharedItems<T>,
    place: Place,
}

impl<T: PageItem> Model for Page<T> {
    ghost use Rattle.std.specs.Prelude.{◌≡◌, None, IsTrue};
    ghost use Rattle.rs_page.specs.Pages.{Page, IsSoundPage, stored_ref};

    ghost Value = { Page T };

    ghost view = { λ page. record { items = page.items.items; place = page.place } };

    // A page that is not on the disk yet has its items alone, so it is changed in place.
    ghost invariant = { λ page. IsSoundPage T.format page.items.items page.place
        × (stored_ref page.place ≡ None → IsTrue page.items.own) };
}

impl<T: PageItem> Page<T> {
    /// Returns a page of these items, which has no blocks yet.
    pub fn new(items: Vec<T>) -> Page<T>
        requires some { 1 ≤ length items.items }
        requires most { length items.items ≤ MOST_ITEMS }
        ensures items { result.items ≡ items.items }
        ensures place { result.place ≡ Place.Touched }
    {
        Page {
            items: SharedItems::new(items),
            place: Place::Touched,
        }
    }

    /// Returns its items, in their order.
    pub fn items(&self) -> &[T]
        ensures items { result.now ≡ self.now.items }
        ensures some { 1 ≤ length result.now }
        ensures most { length result.now ≤ MOST_ITEMS }
    {
        self.items.as_slice()
    }

    /// Returns its place.
    pub fn place(&self) -> Place
        ensures { result ≡ self.now.place }
    {
        self.place
    }

    /// Replaces the item at `i`, counted from 0, by one whose format has as many bytes. The page is
    /// not stored yet, and keeps its place. It takes no memory.
    pub fn replace(&mut self, i: usize, item: T)
        requires within { i < length self.old.items }
        requires fits { IfSome (slice_get self.old.items i) (λ old. length (T.format.bytes item)
            ≡ length (T.format.bytes old)) }
        requires not_stored { stored_ref self.old.place ≡ None }
        ensures items { self.new.items ≡ slice_set self.old.items i item }
        ensures place { self.new.place ≡ self.old.place }
    {
        self.items.replace(i, item);
    }

    /// Gives the page the lowest run of free blocks of its size, if it has no blocks yet. It takes no memory.
    ///
    /// # Errors
    /// [`Full`] if there is no such run; nothing has changed then.
    pub fn place_in(&mut self, used: &mut Used) -> Result<(), Full>
        ensures ok { OnOk result (PlacesOne T.format used.old self.old used.new self.new) }
        ensures full { OnErr result (PageHasNoRun T.format used.old self.old) }
        ensures used { OnErr result (used.new ≡ used.old) }
        ensures err { OnErr result (self.new ≡ self.old) }
    {
        match self.place {
            Place::Placed(_) | Place::Stored(_) => Ok(()),
            Place::Touched => {
                let Some(extent) = used.find(blocks_for(page_size(self.items.as_slice()))) else {
                    return Err(Full);
                };
                used.take(extent);
                self.place = Place::Placed(extent);
                Ok(())
            }
        }
    }

    /// Gives back the blocks that the page was given, and the page is touched again. A page that was
    /// not given blocks, or that is on the disk, stays as it is. It takes no memory.
    pub fn take_back(&mut self, used: &mut Used)
        requires taken { IfSome (placed_extent self.old.place) (IsTaken used.old) }
        ensures items { self.new.items ≡ self.old.items }
        ensures place { self.new.place ≡ place_taken_back self.old.place }
        ensures used { GivesBack self.old.place used.old used.new }
    {
        if let Place::Placed(extent) = self.place {
            used.give(extent);
            self.place = Place::Touched;
        }
    }
}

impl<T: Fill> Page<T> {
    /// Sets the digests of the item at `i`, counted from 0. The page is not stored yet, and keeps its
    /// place. It takes no memory.
    pub fn fill(&mut self, i: usize, digests: Digests)
        requires within { i < length self.old.items }
        requires not_stored { stored_ref self.old.place ≡ None }
        ensures items { IfSome (slice_get self.old.items i)
            (λ item. self.new.items ≡ slice_set self.old.items i (T.filled digests item)) }
        ensures place { self.new.place ≡ self.old.place }
    {
        self.items.fill(i, digests);
    }
}

impl<T: PageItem + Duplicate> Page<T> {
    /// Returns a copy of the page, at the same place. A page on the disk shares its items with the copy; the items of
    /// any other page are copied.
    ///
    /// # Errors
    /// [`AllocError`] if the memory for the copy is refused.
    pub fn copy(&self, alloc: Global) -> Result<Page<T>, AllocError>
        ensures { IfOk result (λ copied. copied ≡ self.now) }
    {
        Ok(Page {
            items: self.items.copy(alloc)?,
            place: self.place,
        })
    }
}
