//! A list of calls that only clauses read.
ghost use Rattle.std.specs.Prelude.{◌≡◌, List, [], ◌∷◌};
ghost use Rattle.std.specs.Borrow.{ftrue};
ghost use Rattle.std.specs.Coded.{coded_list};
ghost use Rattle.rs_file.specs.Events.{Event, event_coded, event_of};

use std::marker::{Model, PhantomData};

// The numbers of the calls.
pub(crate) const READ: u64 = 0;

pub(crate) const WRITE: u64 = 1;

pub(crate) const SYNC: u64 = 2;

/// The calls on a file with their answers, newest first. It takes no memory.
#[derive(Drop)]
pub(crate) struct Record {
    marker: PhantomData<u8>,
    pub ghost events: { List Event } by { coded_list event_coded },
}

impl Model for Record {
    ghost also_owns = { λ _. ftrue };
}

impl Record {
    pub(crate) fn new() -> Record
        ensures { result.events ≡ [] }
    {
        Record {
            marker: PhantomData,
        }
    }

    /// Records a call. The numbers are the call, its offset, and 1 for success.
    pub(crate) fn note(&mut self, _numbers: &[u64], _bytes: &[u8])
        ensures { self.new.events ≡ event_of _numbers.now _bytes.now ∷ self.old.events }
    {}
}
