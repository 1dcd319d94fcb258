//! The items of a page in memory, which copies of the page may share.
ghost use Rattle.std.specs.Prelude.{◌≡◌, ◌<◌, length, slice_get, slice_set, true, IfOk, IfSome, IsTrue};

use crate::{Fill, PageItem};
use rs_fixity::Digests;
use rs_record::{Duplicate, duplicate_all};
use std::alloc::{AllocError, Global};
use std::marker::Model;
use std::mem::replace;
use std::rc::Rc;

/// The holder of the items.
#[derive(Debug, Drop)]
pub(crate) enum Holder<T> {
    // This page alone, so they may be changed in place.
    Own(Vec<T>),
    // Every page with this pointer.
    Shared(Rc<Vec<T>>),
}

/// The items of a page. A page has its items alone until they are shared; a copy of shared items
/// is one more pointer to them.
#[derive(Debug, Drop)]
pub(crate) struct SharedItems<T> {
    holder: Holder<T>,
}

impl<T> Model for SharedItems<T> {
    ghost use Rattle.rs_page.specs.HeldItems.{HeldItems, items_held, is_own};

    ghost Value = { HeldItems T };

    ghost view = { λ held. record { items = items_held held.holder; own = is_own held.holder } };
}

impl<T: Drop> SharedItems<T> {
    /// Returns items that one page has alone.
    pub(crate) fn new(items: Vec<T>) -> SharedItems<T>
        ensures items { result.items ≡ items.items }
        ensures own { IsTrue result.own }
    {
        SharedItems {
            holder: Holder::Own(items),
        }
    }

    /// Returns the items, in their order.
    pub(crate) fn as_slice(&self) -> &[T]
        ensures { result.now ≡ self.now.items }
    {
        match &self.holder {
            Holder::Own(items) => items,
            Holder::Shared(items) => items,
        }
    }

    /// Lets copies share the items from here on. If the memory for that is refused, the page still has them alone.
    pub(crate) fn share(&mut self, alloc: Global)
        ensures { self.new.items ≡ self.old.items }
    {
        let holder = replace(&mut self.holder, Holder::Own(Vec::new(alloc)));
        self.holder = match holder {
            Holder::Own(items) => match Rc::new(alloc, items) {
                Ok(shared) => Holder::Shared(shared),
                Err(refused) => Holder::Own(refused.value),
            },
            Holder::Shared(shared) => Holder::Shared(shared),
        };
    }

    /// Replaces the item at `i`, counted from 0. It takes no memory.
    pub(crate) fn replace(&mut self, i: usize, item: T)
        requires own { IsTrue self.old.own }
        requires within { i < length self.old.items }
        ensures items { self.new.items ≡ slice_set self.old.items i item }
        ensures own { IsTrue self.new.own }
    {
        if let Holder::Own(items) = &mut self.holder {
            items[i] = item;
        }
    }
}

impl<T: Fill> SharedItems<T> {
    /// Sets the digests of the item at `i`, counted from 0. It takes no memory.
    pub(crate) fn fill(&mut self, i: usize, digests: Digests)
        requires own { IsTrue self.old.own }
        requires within { i < length self.old.items }
        ensures items { IfSome (slice_get self.old.items i)
            (λ item. self.new.items ≡ slice_set self.old.items i (T.filled digests item)) }
        ensures size { IfSome (slice_get self.old.items i)
            (λ item. length (T.format.bytes (T.filled digests item))
            ≡ length (T.format.bytes item)) }
        ensures own { IsTrue self.new.own }
    {
        if let Holder::Own(items) = &mut self.holder {
            items[i].fill(digests);
        }
    }
}

impl<T: PageItem + Duplicate> SharedItems<T> {
    /// Returns a copy of the items: one more pointer if they are shared, else a copy of every item.
    ///
    /// # Errors
    /// [`AllocError`] if the memory for the copy is refused.
    pub(crate) fn copy(&self, alloc: Global) -> Result<SharedItems<T>, AllocError>
        ensures { IfOk result (λ copied. copied ≡ self.now) }
    {
        Ok(SharedItems {
            holder: match &self.holder {
                Holder::Own(items) => Holder::Own(duplicate_all(alloc, items)?),
                Holder::Shared(items) => Holder::Shared(items.clone()?),
            },
        })
    }
}
