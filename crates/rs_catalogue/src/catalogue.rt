//! A catalogue in memory.

ghost use Rattle.std.specs.Prelude.{◌≡◌, ◌<◌, [], length, map, slice_get, Some, IfOk, IfSome, IsNone};
ghost use Rattle.std.specs.Option.{option_copied};
ghost use Rattle.rs_model.specs.Names.{value_of, bind, unbind};
ghost use Rattle.rs_model.specs.State.{most_resources};
ghost use Rattle.rs_page.specs.Items.{record_filled};
ghost use Rattle.rs_page.specs.Pages.{placed_extents, stored_refs};
ghost use Rattle.rs_page.specs.SharedPages.{KeepsPages};
ghost use Rattle.rs_pages.specs.Rule.{bound_in, unbound_in};
ghost use Rattle.rs_pages.specs.Dropped.{full_pages};
ghost use Rattle.rs_catalogue.specs.Filled.{pages_filled};
ghost use Rattle.rs_catalogue.specs.Named.{named};
ghost use Rattle.rs_catalogue.specs.Catalogue.{records_of, AreHeld, IsCatalogue, StandsUnstored};

use rs_fixity::Digests;
use rs_page::PageRef;
use rs_pages::Pages;
use rs_pages::laws::{items_are_filled_as_one, one_page_is_touched, pages_are_one_map};
use rs_record::{Name, Record};
use std::alloc::{AllocError, Global};
use std::marker::Model;

/// The records of the held resources, in the strictly ascending order of the bytes of their names: at most 50,000
/// records, in pages. Contracts see the list of the pages.
#[derive(Debug, Drop)]
pub struct Catalogue {
    pub(crate) pages: Pages<Record>,
}

impl Model for Catalogue {
    ghost use Rattle.std.specs.Prelude.{List};
    ghost use Rattle.rs_record.specs.declared.record.Record.{Record};
    ghost use Rattle.rs_page.specs.Pages.{Page};
    ghost use Rattle.rs_catalogue.specs.Catalogue.{records_of, AreHeld};

    ghost Value = { List (Page Record) };

    ghost view = { λ c. c.pages };

    ghost invariant = { λ c. AreHeld (records_of c.pages) };
}

impl Catalogue {
    /// Returns a catalogue of no records, which has no pages.
    pub fn empty(alloc: Global) -> Catalogue
        ensures { result ≡ [] }
    {
        Catalogue {
            pages: Pages::empty(alloc),
        }
    }

    /// Returns the catalogue of these records, at most 50,000, whose names strictly ascend: in pages of 64, of which
    /// the last has the rest. All of them are touched.
    ///
    /// # Errors
    ///
    /// [`AllocError`] where the memory is refused.
    pub fn from_records(alloc: Global, records: &[Record]) -> Result<Catalogue, AllocError>
        requires { AreHeld records.now }
        ensures pages { IfOk result (λ made. made ≡ full_pages records.now) }
        ensures records { IfOk result (λ made. records_of made ≡ records.now) }
        ensures unplaced { IfOk result (λ made. placed_extents made ≡ []) }
        ensures unstored { IfOk result (λ made. stored_refs made ≡ []) }
    {
        let pages = Pages::of_items(alloc, records)?;
        Ok(Catalogue { pages })
    }

    /// Returns the number of records.
    pub fn len(&self) -> usize
        ensures value { result ≡ length (records_of self.now) }
        ensures lawful { IsCatalogue self.now }
    {
        self.pages.len()
    }

    /// Returns its pages, to ask for their number, their entries and their places.
    pub fn as_pages(&self) -> &Pages<Record>
        ensures value { result.now ≡ self.now }
        ensures lawful { AreHeld (records_of self.now) }
    {
        &self.pages
    }

    /// Returns the record at place `i` in the order of the names, counted from 0. It takes as many steps as the number
    /// of pages has bits.
    pub fn at(&self, i: usize) -> &Record
        requires { i < length (records_of self.now) }
        ensures { slice_get (records_of self.now) i ≡ Some result.now }
    {
        self.pages.at(i)
    }

    /// Returns the record of a name, if there is one.
    pub fn get(&self, name: &Name) -> Option<&Record>
        ensures { option_copied result ≡ value_of name.now (named (records_of self.now)) }
    {
        self.pages.get(name)
    }

    /// Returns the catalogue with this record bound to its name; it replaces the record that had the name. This
    /// catalogue stays as it is.
    ///
    /// The record goes into the last page whose first name is not above its own, or else into the first page. That page
    /// is touched: if it has more than 64 records, pages of 32 are cut from its front until at most 64 records are
    /// left. All other pages stay the same pages.
    ///
    /// # Errors
    ///
    /// [`AllocError`] where the memory is refused.
    pub fn with(&self, alloc: Global, record: Record) -> Result<Catalogue, AllocError>
        requires { IsNone (value_of «record».name (named (records_of self.now)))
            → length (records_of self.now) < most_resources }
        ensures pages { IfOk result (λ next. next
            ≡ bound_in (λ r. r.name) «record» self.now) }
        ensures bound { IfOk result (λ next. named (records_of next)
            ≡ bind «record».name «record» (named (records_of self.now))) }
        ensures kept { IfOk result (KeepsPages self.now) }
        ensures unstored { IfOk result (StandsUnstored «record».name) }
        ensures unplaced { placed_extents self.now ≡ []
            → IfOk result (λ next. placed_extents next ≡ []) }
    {
        pages_are_one_map::<Record>();
        one_page_is_touched::<Record>();
        let pages = self.pages.with(alloc, record)?;
        Ok(Catalogue { pages })
    }

    /// Returns the catalogue without the record of this name, or the same catalogue if no record has it. This catalogue
    /// stays as it is. The page of the record is touched, and is dropped if it is left empty. Pages are never joined,
    /// and all other pages stay the same pages.
    ///
    /// # Errors
    ///
    /// [`AllocError`] where the memory is refused.
    pub fn without(&self, alloc: Global, name: &Name) -> Result<Catalogue, AllocError>
        ensures pages { IfOk result (λ next. next ≡ unbound_in (λ r. r.name) name.now self.now) }
        ensures unbound { IfOk result (λ next. named (records_of next)
            ≡ unbind name.now (named (records_of self.now))) }
        ensures kept { IfOk result (KeepsPages self.now) }
        ensures unplaced { placed_extents self.now ≡ []
            → IfOk result (λ next. placed_extents next ≡ []) }
        ensures absent { IsNone (value_of name.now (named (records_of self.now)))
            → IfOk result (λ next. next ≡ self.now) }
    {
        pages_are_one_map::<Record>();
        one_page_is_touched::<Record>();
        let pages = self.pages.without(alloc, name)?;
        Ok(Catalogue { pages })
    }

    /// Returns a copy of the catalogue, in the same pages.
    ///
    /// # Errors
    ///
    /// [`AllocError`] where the memory is refused.
    pub fn copy(&self, alloc: Global) -> Result<Catalogue, AllocError>
        ensures { IfOk result (λ copied. copied ≡ self.now) }
    {
        let pages = self.pages.copy(alloc)?;
        Ok(Catalogue { pages })
    }

    /// Sets the digests of the record of this name. Its page is not stored, as after
    /// [`Catalogue::with`] bound the record. It takes no memory.
    pub fn fill(&mut self, name: &Name, digests: Digests)
        requires { StandsUnstored name.now self.old }
        ensures filled { IfSome (value_of name.now (named (records_of self.old)))
            (λ r. named (records_of self.new)
            ≡ bind name.now (record_filled digests r) (named (records_of self.old))) }
        ensures places { map (λ page. page.place) self.new ≡ map (λ page. page.place) self.old }
        ensures lengths { map (λ page. length page.items) self.new
            ≡ map (λ page. length page.items) self.old }
        ensures pages { self.new ≡ pages_filled name.now digests self.old }
    {
        items_are_filled_as_one::<Record>();
        self.pages.fill(name, digests);
    }

    /// Returns the references to the pages that are on the disk, in their order.
    ///
    /// # Errors
    ///
    /// [`AllocError`] where the memory is refused.
    pub fn pages(&self, alloc: Global) -> Result<Vec<PageRef>, AllocError>
        ensures pages { IfOk result (λ pages. pages.items ≡ stored_refs self.now) }
        ensures lawful { IsCatalogue self.now }
    {
        self.pages.pages(alloc)
    }
}
