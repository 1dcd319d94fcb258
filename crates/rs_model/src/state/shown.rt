//! The values that a state shows.

ghost use Rattle.std.specs.Prelude.{◌≡◌, length, map, option_copied};
ghost use Rattle.rs_model.specs.State.{body_of};
ghost use Rattle.rs_model.specs.Lawful.{IsLawful};
ghost use Rattle.rs_model.specs.Listed.{record_of};

use super::State;
use crate::Held;
use crate::names::place_in_order;
use rs_record::{Base, Change, Name, Record};
use rs_time::Moment;

impl State {
    /// Returns the base of its URIs.
    pub fn base(&self) -> &Base
        ensures { result.now ≡ self.now.base }
    {
        &self.base
    }

    /// Returns the item limit, from 2 to 4,000.
    pub fn limit(&self) -> u16
        ensures value { result ≡ self.now.limit }
        ensures lawful { IsLawful self.now }
    {
        self.limit
    }

    /// Returns the moment at which the source was formatted.
    pub fn formatted(&self) -> Moment
        ensures { result ≡ self.now.start }
    {
        self.start
    }

    /// Returns the moment of the latest accepted command, or of formatting before the first.
    pub fn last(&self) -> Moment
        ensures { result ≡ self.now.last }
    {
        self.last
    }

    /// Returns the number of the latest publication. Formatting publishes number 0.
    pub fn number(&self) -> u64
        ensures { result ≡ self.now.number }
    {
        self.number
    }

    /// Returns the moment of the latest publication.
    pub fn at(&self) -> Moment
        ensures { result ≡ self.now.at }
    {
        self.at
    }

    /// Returns the resources that are held, in ascending order of the bytes of their names.
    pub fn held(&self) -> &[(Name, Held)]
        ensures { result.now ≡ self.now.held }
    {
        &self.held
    }

    /// Returns the latest publication: the resources held at its moment, in ascending order of the bytes of their
    /// names. Their records have empty extents, since a list is on no disk.
    pub fn listed(&self) -> &[Record]
        ensures { result.now ≡ map record_of self.now.listed }
    {
        &self.listed
    }

    /// Returns the changes that are kept, in the order of their moments.
    pub fn changes(&self) -> &[Change]
        ensures { result.now ≡ self.now.changes }
    {
        &self.changes
    }

    /// Returns the number of the first kept part of the changes: the number of dropped parts, at most
    /// 253,402,300,799,999.
    pub fn first(&self) -> u64
        ensures { result ≡ self.now.first }
    {
        self.first
    }

    /// Returns the moment at which the kept changes begin: that of the last dropped change, or of formatting.
    pub fn begin(&self) -> Moment
        ensures { result ≡ self.now.begin }
    {
        self.begin
    }

    /// Returns the number of resources that are held, at most 50,000.
    pub fn resources(&self) -> usize
        ensures { result ≡ length self.now.held }
    {
        self.held.len()
    }

    /// Returns the bytes of a resource, or `None` where it is not held.
    pub fn body(&self, name: &Name) -> Option<&[u8]>
        ensures { option_copied result ≡ body_of name.now self.now }
    {
        match place_in_order(self.held.as_slice(), name) {
            Ok(i) => Some(self.held[i].1.bytes.bytes()),
            Err(_) => None,
        }
    }
}

/// The law that every state is lawful. The function has no effect.
pub fn states_are_lawful(state: &State)
    ensures { IsLawful state.now }
{
    let _ = &state.limit;
}
