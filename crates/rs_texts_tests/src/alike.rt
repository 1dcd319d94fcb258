//! A view with any number of records and changes, all alike.

ghost use Rattle.std.specs.Prelude.{◌≤◌};

use rs_lists::View;
use rs_record::{Base, Change, Record};
use rs_time::Moment;
use std::test::Fail;

/// A source that shows one record and one change again and again.
#[derive(Drop)]
pub struct Alike<'a> {
    pub base: &'a Base,
    pub start: Moment,
    pub at: Moment,
    pub number: u64,
    pub first: u64,
    pub begin: Moment,
    pub record: &'a Record,
    pub change: &'a Change,
    pub limit: u16,
    /// The number of records that it shows, and of changes.
    pub items: usize,
    pub ghost low: { 2 ≤ limit },
    pub ghost high: { limit ≤ 4000 },
    pub ghost few: { items ≤ 50000 },
    pub ghost small_first: { first ≤ 253402300799999 },
}

impl View for Alike<'_> {
    ghost use Rattle.std.specs.Prelude.{replicate};
    ghost use Rattle.rs_texts_tests.specs.declared.alike.Alike.{Alike};

    ghost shown = { λ s. record {
      base = s.base.now;
      limit = s.limit;
      start = s.start;
      number = s.number;
      at = s.at;
      published = replicate s.items s.record.now;
      changes = replicate s.items s.change.now;
      first = s.first;
      begin = s.begin;
    } };

    fn base(&self) -> &Base {
        self.base
    }

    fn limit(&self) -> u16 {
        self.limit
    }

    fn start(&self) -> Moment {
        self.start
    }

    fn number(&self) -> u64 {
        self.number
    }

    fn at(&self) -> Moment {
        self.at
    }

    fn published_len(&self) -> usize {
        self.items
    }

    fn published(&self, _i: usize) -> &Record {
        self.record
    }

    fn changes_len(&self) -> usize {
        self.items
    }

    fn change(&self, _i: usize) -> &Change {
        self.change
    }

    fn first(&self) -> u64 {
        self.first
    }

    fn begin(&self) -> Moment {
        self.begin
    }
}

impl Alike<'_> {
    /// Shows this many items at this limit. Their parts are numbered from `first` on.
    pub fn show(&mut self, limit: u16, items: usize, first: u64) -> Result<(), Fail> {
        if limit < 2 || limit > 4000 || items > 50_000 || first > 253_402_300_799_999 {
            return Err(Fail::new("a view out of bounds"));
        }
        self.limit = limit;
        self.items = items;
        self.first = first;
        Ok(())
    }
}
