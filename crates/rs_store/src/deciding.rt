//! Refusals that need neither memory nor the disk.

ghost use Rattle.std.specs.Prelude.{◌≡◌, ◌<◌, ◌+◌, ◌^◌, ℕ, List, [], ◌∷◌, length, false, not, is_some, is_none, IfOk, IsTrue, OnOk};
ghost use Rattle.rs_model.specs.Names.{is_ordered, value_of};
ghost use Rattle.rs_model.specs.Step.{moment_at, change_refusal, first_cause, is_held, is_out_of_moments};
ghost use Rattle.rs_catalogue.specs.Named.{named};
ghost use Rattle.rs_catalogue.specs.Catalogue.{records_of};
ghost use Rattle.rs_plan.specs.Allowed.{MayChange, MayPut, MayDelete, MayPublish};
ghost use Rattle.rs_model.specs.declared.command.Command.TheVariants.{Put, Delete, Publish};
ghost use Rattle.rs_model.specs.declared.command.Refusal.TheVariants as decides;
ghost use Rattle.rs_store.specs.Source.{state_of};
ghost use Rattle.rs_store.specs.Refusals.{decided, is_spent, or_spent};
ghost use Rattle.rs_store.specs.Answered.{moment_unless};

use crate::{Refusal, Source};
use rs_disk::Disk;
use rs_plan::dropped_parts;
use rs_record::{LONGEST_BODY, MOST_ITEMS, Name};
use rs_time::Moment;

// `let moment = ..?; Ok(moment)`, and not the call alone: `?` makes the prover separate an accepted command from a
// refused one, and every clause here concerns one of these cases.
impl<D: Disk> Source<D> {
    /// Accepts a put of `body_length` bytes at the moment that it gives, or refuses it at once.
    pub(crate) fn accept_put(
        &self,
        name: &Name,
        body_length: u64,
        now: Moment,
    ) -> Result<Moment, Refusal>
        ensures decided { (kind bytes : List ℕ) → length bytes ≡ body_length
            → result ≡ moment_unless
            (decided self.now (state_of D.state self.now) (Put name.now kind bytes) now)
            (moment_at (state_of D.state self.now) now) }
        ensures open { OnOk result (self.now.is_closed ≡ false) }
        ensures may { IfOk result (MayPut self.now.contents name.now body_length) }
        ensures spare { OnOk result (self.now.slots.root.generation + 1 < 2 ^ 64) }
    {
        if self.is_closed {
            return Err(Refusal::Closed);
        }
        if body_length > LONGEST_BODY as u64 {
            return Err(Refusal::TooLong);
        }
        if self.resources() >= MOST_ITEMS && !self.holds(name) {
            return Err(Refusal::TooManyResources);
        }
        let moment = self.accept_change(now)?;
        Ok(moment)
    }

    /// Accepts a delete at the moment that it gives, or refuses it at once.
    pub(crate) fn accept_delete(&self, name: &Name, now: Moment) -> Result<Moment, Refusal>
        ensures decided { result ≡ moment_unless
            (decided self.now (state_of D.state self.now) (Delete name.now) now)
            (moment_at (state_of D.state self.now) now) }
        ensures open { OnOk result (self.now.is_closed ≡ false) }
        ensures may { IfOk result (MayDelete self.now.contents name.now) }
        ensures spare { OnOk result (self.now.slots.root.generation + 1 < 2 ^ 64) }
    {
        if self.is_closed {
            return Err(Refusal::Closed);
        }
        if !self.holds(name) {
            return Err(Refusal::NotHeld);
        }
        let moment = self.accept_change(now)?;
        Ok(moment)
    }

    /// Accepts a publish at the moment that it gives, or refuses it at once.
    pub(crate) fn accept_publish(&self, now: Moment) -> Result<Moment, Refusal>
        ensures decided { result ≡ moment_unless
            (decided self.now (state_of D.state self.now) Publish now)
            (moment_at (state_of D.state self.now) now) }
        ensures open { OnOk result (self.now.is_closed ≡ false) }
        ensures may { IfOk result (MayPublish self.now.contents) }
        ensures spare { OnOk result (self.now.slots.root.generation + 1 < 2 ^ 64) }
    {
        if self.is_closed {
            return Err(Refusal::Closed);
        }
        let header = &self.contents.header;
        let first = header.first.saturating_add(dropped_parts(&self.contents));
        if header.number == u64::MAX || first > Moment::GREATEST {
            return Err(Refusal::Exhausted);
        }
        let moment = self.next_moment(now)?;
        Ok(moment)
    }

    /// Accepts a put or a delete for which the held resources leave room.
    fn accept_change(&self, now: Moment) -> Result<Moment, Refusal>
        ensures decided { result ≡ moment_unless
            (or_spent (change_refusal (state_of D.state self.now)) (is_spent self.now))
            (moment_at (state_of D.state self.now) now) }
        ensures may { IfOk result (MayChange self.now.contents) }
        ensures spare { OnOk result (self.now.slots.root.generation + 1 < 2 ^ 64) }
    {
        if self.contents.history.len() >= MOST_ITEMS {
            return Err(Refusal::TooManyChanges);
        }
        let moment = self.next_moment(now)?;
        Ok(moment)
    }

    /// Returns whether the name is held.
    pub(crate) fn holds(&self, name: &Name) -> bool
        ensures held { result ≡ is_held (state_of D.state self.now) name.now }
        ensures lacks { not result ≡ is_none (value_of name.now (state_of D.state self.now).held) }
        ensures found { result ≡ is_some
            (value_of name.now (named (records_of self.now.contents.catalogue))) }
    {
        self.contents.catalogue.get(name).is_some()
    }

    /// Returns the number of held resources.
    pub(crate) fn resources(&self) -> usize
        ensures held { result ≡ length (state_of D.state self.now).held }
        ensures records { result ≡ length (records_of self.now.contents.catalogue) }
        ensures ordered { IsTrue (is_ordered (state_of D.state self.now).held) }
    {
        self.contents.catalogue.len()
    }

    /// Returns the moment of a command that has no other cause of a refusal, or refuses it with `Exhausted`.
    pub(crate) fn next_moment(&self, now: Moment) -> Result<Moment, Refusal>
        ensures decided { result ≡ moment_unless
            (or_spent
            (first_cause
            ((is_out_of_moments (state_of D.state self.now), decides.Exhausted) ∷ []))
            (is_spent self.now))
            (moment_at (state_of D.state self.now) now) }
        ensures later { IfOk result (λ moment. self.now.contents.header.last < moment) }
        ensures spare { OnOk result (self.now.slots.root.generation + 1 < 2 ^ 64) }
    {
        let Some(moment) = Moment::after(self.contents.header.last, now) else {
            return Err(Refusal::Exhausted);
        };
        if self.slots.root().generation == u64::MAX {
            return Err(Refusal::Exhausted);
        }
        Ok(moment)
    }
}
