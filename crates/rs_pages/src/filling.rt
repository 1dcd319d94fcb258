//! Items that get their digests after they were made.
ghost use Rattle.std.specs.Prelude.{◌≡◌, ◌<◌, length, map, slice_get, IfSome, IsTrue};
ghost use Rattle.rs_model.specs.Names.{is_ordered};
ghost use Rattle.rs_page.specs.Pages.{items_of};
ghost use Rattle.rs_pages.specs.Changed.{changed_at, page_filled};
ghost use Rattle.rs_pages.specs.Filled.{named_filled, end_filled, last_filled, IsUnstored, StandsUnstored, EndsUnstored};
ghost use Rattle.rs_pages.specs.Items.{keyed};
ghost use Rattle.rs_pages.specs.Rule.{items_at};

use crate::within::place_of;
use crate::{Named, Pages};
use rs_fixity::Digests;
use rs_page::Fill;
use rs_record::Name;

impl<T: Named + Fill> Pages<T> {
    /// Sets the digests of the item of this name, whose page is not on the disk. Every page keeps
    /// its place. It takes no memory.
    pub fn fill(&mut self, name: &Name, digests: Digests)
        requires ordered { IsTrue (is_ordered (keyed T.name (items_of self.old))) }
        requires unstored { StandsUnstored T.name name.now self.old }
        ensures pages { self.new ≡ named_filled T.name (T.filled digests) name.now self.old }
        ensures places { map (λ page. page.place) self.new ≡ map (λ page. page.place) self.old }
        ensures lengths { map (λ page. length page.items) self.new
            ≡ map (λ page. length page.items) self.old }
    {
        let home = self.home_of(name);
        if let Ok(i) = place_of(self.items_at(home), name) {
            self.fill_at(home, i, digests);
        }
    }
}

impl<T: Fill> Pages<T> {
    /// Sets the digests of the last item, whose page is not on the disk. Every page keeps its
    /// place. It takes no memory.
    pub fn fill_last(&mut self, digests: Digests)
        requires { EndsUnstored self.old }
        ensures pages { self.new ≡ last_filled (T.filled digests) self.old }
        ensures items { items_of self.new ≡ end_filled (T.filled digests) (items_of self.old) }
        ensures places { map (λ page. page.place) self.new ≡ map (λ page. page.place) self.old }
        ensures lengths { map (λ page. length page.items) self.new
            ≡ map (λ page. length page.items) self.old }
    {
        let k = self.pages.len() - 1;
        let i = self.items_at(k).len() - 1;
        self.fill_at(k, i, digests);
    }

    /// Sets the digests of the item at `i` of the page at `k`, both counted from 0. That page is not on
    /// the disk.
    fn fill_at(&mut self, k: usize, i: usize, digests: Digests)
        requires within { i < length (items_at k self.old) }
        requires not_stored { IfSome (slice_get self.old k) IsUnstored }
        ensures pages { self.new ≡ changed_at (page_filled (T.filled digests) i) k self.old }
        ensures places { map (λ page. page.place) self.new ≡ map (λ page. page.place) self.old }
        ensures lengths { map (λ page. length page.items) self.new
            ≡ map (λ page. length page.items) self.old }
    {
        self.pages[k].fill(i, digests);
    }
}
