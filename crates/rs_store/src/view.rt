//! A source, as its documents show it.

ghost use Rattle.std.specs.Prelude.{◌≡◌, ◌≤◌};
ghost use Rattle.rs_time.specs.Moment.{greatest};

use crate::Source;
use rs_disk::Disk;
use rs_image::Contents;
use rs_lists::View;
use rs_record::{Base, Change, Record};
use rs_time::Moment;

/// A source, as its documents show it: its latest publication and the kept changes. It borrows the source and copies
/// nothing.
#[derive(Drop)]
pub struct SourceView<'a, D: Disk> {
    pub(crate) source: &'a Source<D>,
}

impl<'a, D: Disk> SourceView<'a, D> {
    /// The lists of the source.
    fn contents(&self) -> &'a Contents
        ensures value { result.now ≡ self.now.source.now.contents }
        ensures first { result.now.header.first ≤ greatest }
    {
        let source = self.source;
        &source.contents
    }
}

impl<D: Disk> View for SourceView<'_, D> {
    ghost use Rattle.rs_store.specs.Views.{shown_by_source};

    ghost shown = { shown_by_source };

    fn base(&self) -> &Base {
        &self.contents().header.base
    }

    fn limit(&self) -> u16 {
        let contents = self.contents();
        // The lengths bring the bounds of the lists into the proof.
        let (_published, _changes) = (contents.published.len(), contents.history.len());
        contents.header.limit.items()
    }

    fn start(&self) -> Moment {
        self.contents().header.start
    }

    fn number(&self) -> u64 {
        self.contents().header.number
    }

    fn at(&self) -> Moment {
        self.contents().header.at
    }

    fn published_len(&self) -> usize {
        self.contents().published.len()
    }

    fn published(&self, i: usize) -> &Record {
        self.contents().published.at(i)
    }

    fn changes_len(&self) -> usize {
        self.contents().history.len()
    }

    fn change(&self, i: usize) -> &Change {
        self.contents().history.at(i)
    }

    fn first(&self) -> u64 {
        self.contents().header.first
    }

    fn begin(&self) -> Moment {
        self.contents().header.begin
    }
}
