//! A state of the model, as its documents show it.

ghost use Rattle.std.specs.Prelude.{◌≡◌, IsOkAnd};
ghost use Rattle.rs_caps.specs.Shows.{shown_of};

use rs_lists::View;
use rs_model::State;
use rs_record::{Base, Change, Record};
use rs_time::Moment;
use std::alloc::{AllocError, Global};

/// A state as its documents show it: its latest publication and the changes that it keeps. It borrows the state without
/// a copy. A listed resource has no extent of its own here, so its record has an empty extent.
#[derive(Drop)]
pub struct StateView<'a> {
    state: &'a State,
}

impl<'a> StateView<'a> {
    ghost use Rattle.rs_caps.specs.Views.{shown_by_state};

    /// Returns the view of a state.
    ///
    /// # Errors
    ///
    /// None: it takes no memory, from any allocator.
    pub fn new(_alloc: Global, state: &'a State) -> Result<StateView<'a>, AllocError>
        ensures { IsOkAnd result (λ view. shown_by_state view ≡ shown_of state.now) }
    {
        Ok(StateView { state })
    }
}

impl View for StateView<'_> {
    ghost use Rattle.rs_caps.specs.Views.{shown_by_state};

    ghost shown = { shown_by_state };

    fn base(&self) -> &Base {
        self.state.base()
    }

    fn limit(&self) -> u16 {
        self.state.limit()
    }

    fn start(&self) -> Moment {
        self.state.formatted()
    }

    fn number(&self) -> u64 {
        self.state.number()
    }

    fn at(&self) -> Moment {
        self.state.at()
    }

    fn published_len(&self) -> usize {
        self.state.listed().len()
    }

    fn published(&self, i: usize) -> &Record {
        &self.state.listed()[i]
    }

    fn changes_len(&self) -> usize {
        self.state.changes().len()
    }

    fn change(&self, i: usize) -> &Change {
        &self.state.changes()[i]
    }

    fn first(&self) -> u64 {
        self.state.first()
    }

    fn begin(&self) -> Moment {
        self.state.begin()
    }
}
