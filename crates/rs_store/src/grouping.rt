//! Groups: several puts and deletes in one commit.

ghost use Rattle.std.specs.Prelude.{◌≡◌, ◌<◌, ◌≤◌, ◌+◌, ◌^◌, ℕ, Bool, length, take, map, false, None, IfOk, OnOk, IsErrOf, IsErr};
ghost use Rattle.std.specs.List.{AllZip};
ghost use Rattle.rs_disk.specs.Runs.{RunsWriting};
ghost use Rattle.rs_extent.specs.Extents.{AreApart, AreBeside, AreOnDisk};
ghost use Rattle.rs_body.specs.Blocks.{IsSized};
ghost use Rattle.rs_body.specs.Outside.{WritesOnly};
ghost use Rattle.rs_model.specs.Grouping.{name_of};
ghost use Rattle.rs_model.specs.State.{most_grouped};
ghost use Rattle.rs_model.specs.Step.{is_held, moment_at, refusal_of};
ghost use Rattle.rs_model.specs.declared.command.Command.TheVariants.{Group};
ghost use Rattle.rs_plan.specs.Allowed.{MayGroup};
ghost use Rattle.rs_plan.specs.declared.planning.PlanFault.{PlanFault};
ghost use Rattle.rs_plan.specs.Plans.{AreBodies, IsPlanned, IsFullFor};
ghost use Rattle.rs_plan.specs.Room.{bodies_kept};
ghost use Rattle.rs_store.specs.Source.{rooted_in, state_of};
ghost use Rattle.rs_store.specs.Refusals.{decided};
ghost use Rattle.rs_store.specs.Answered.{Answers, moment_unless};

use crate::source::rooted_by;
use crate::{Refusal, Source};
use rs_body::write_body;
use rs_disk::{Disk, Fault};
use rs_extent::Extent;
use rs_model::{
    Counts, Item, MOST_GROUPED, Refusal as Refused, Reply, group_refusal, groups_step_in_turn,
};
use rs_plan::{Plan, PlanFault, body_kept, plan_group};
use rs_time::Moment;

impl<D: Disk> Source<D> {
    /// Puts and deletes these 1 to 16 items in their order, with one commit: a crash leaves all of them done or none.
    /// The source accepts the first item as it accepts a put, and every other item one millisecond after the previous
    /// one. It does not write a body that a later item replaces or deletes.
    ///
    /// The reply has the number of items and the moment of the first, and comes as with [`Source::put`].
    ///
    /// # Errors
    ///
    /// As with [`Source::put`] and [`Source::delete`]: the first refused item, in the state after the items before it,
    /// decides. [`Refusal::BadGroup`], for no items or more than 16, comes right after [`Refusal::Closed`]. No error
    /// but [`Refusal::Device`] leaves an item done.
    pub fn group(&mut self, items: &[Item], now: Moment) -> Result<Reply, Refusal>
        ensures { Answers D.state self.old self.new (Group items.now) now result }
    {
        let moment = self.accept_group(items, now)?;
        let mut plan = self.planned_group(items, moment)?;
        self.carry_out_group(&mut plan, items)
    }

    /// Plans a group whose first item is done at this moment.
    fn planned_group(&mut self, items: &[Item], moment: Moment) -> Result<Plan, PlanFault>
        requires may { MayGroup self.old.contents items.now moment }
        ensures same { self.new ≡ self.old }
        ensures planned { IfOk result
            (IsPlanned (rooted_in D.state self.old) (Group items.now) moment) }
        ensures full { IsErrOf result PlanFault.Full
            → IsFullFor (rooted_in D.state self.old) (Group items.now) moment }
    {
        let rooted = rooted_by(&self.disk, &self.slots, &self.contents);
        plan_group(self.alloc, &mut self.used, &rooted, items, moment)
    }

    /// Writes the bodies of a planned group, and then its lists.
    fn carry_out_group(&mut self, plan: &mut Plan, items: &[Item]) -> Result<Reply, Refusal>
        requires is_open { self.old.is_closed ≡ false }
        requires spare { self.old.slots.root.generation + 1 < 2 ^ 64 }
        requires planned { (moment : ℕ)
            × IsPlanned (rooted_in D.state self.old) (Group items.now) moment plan.old }
        ensures { (now : ℕ)
            → decided self.old (state_of D.state self.old) (Group items.now) now ≡ None
            → IsPlanned (rooted_in D.state self.old) (Group items.now)
            (moment_at (state_of D.state self.old) now) plan.old
            → Answers D.state self.old self.new (Group items.now) now result }
    {
        if write_bodies(&mut self.disk, &plan.bodies, items).is_err() {
            self.is_closed = true;
            return Err(Refusal::Device);
        }
        self.finish(plan)
    }

    /// Accepts a group, whose first item gets the moment that it gives, or refuses it at once.
    fn accept_group(&self, items: &[Item], now: Moment) -> Result<Moment, Refusal>
        ensures decided { result ≡ moment_unless
            (decided self.now (state_of D.state self.now) (Group items.now) now)
            (moment_at (state_of D.state self.now) now) }
        ensures open { OnOk result (self.now.is_closed ≡ false) }
        ensures may { IfOk result (MayGroup self.now.contents items.now) }
        ensures spare { OnOk result (self.now.slots.root.generation + 1 < 2 ^ 64) }
    {
        if self.is_closed {
            return Err(Refusal::Closed);
        }
        groups_step_in_turn();
        if items.is_empty() || items.len() > MOST_GROUPED {
            return Err(Refusal::BadGroup);
        }
        if let Some(refused) = self.refused_group(items, now) {
            return Err(refused.into());
        }
        // Not the call alone, as in `deciding`: `?` makes the prover separate an accepted group from a refused one.
        let moment = self.next_moment(now)?;
        Ok(moment)
    }

    /// Returns the reason why the model refuses this group, if it does.
    fn refused_group(&self, items: &[Item], now: Moment) -> Option<Refused>
        requires { length items.now ≤ most_grouped }
        ensures { result ≡ refusal_of (state_of D.state self.now) (Group items.now) now }
    {
        let mut held = [false; MOST_GROUPED];
        self.note_held(items, &mut held);
        let counts = Counts {
            resources: self.resources(),
            changes: self.contents.history.len(),
            last: self.contents.header.last,
        };
        group_refusal(items, &held[..items.len()], counts, now)
    }

    /// Notes for all items whether their names are held.
    fn note_held(&self, items: &[Item], held: &mut [bool])
        requires { length items.now ≤ length held.old }
        ensures noted { take (length items.now) held.new
            ≡ map (λ item. is_held (state_of D.state self.now) (name_of item)) items.now }
        ensures size { length held.new ≡ length held.old }
    {
        for (i, item) in items.iter().enumerate() {
            held[i] = self.holds(item.name());
        }
    }
}

/// Writes all bodies that no later item replaces or deletes to their extents. With any result, only these extents
/// change.
fn write_bodies<D: Disk>(disk: &mut D, extents: &[Extent], items: &[Item]) -> Result<(), Fault>
    requires room { AreOnDisk extents.now (D.state disk.old).size }
    requires apart { AreApart extents.now }
    requires sized { AllZip (λ extent bytes. IsSized extent (length bytes))
        extents.now (bodies_kept items.now) }
    ensures stand { OnOk result
        (AreBodies (D.state disk.new).now.seen extents.now (bodies_kept items.now)) }
    ensures writes { WritesOnly extents.now (IsErr result) (D.state disk.old) (D.state disk.new) }
{
    let mut written = 0;
    for i in 0..items.len() {
        if let Some(bytes) = body_kept(&items[i..]) {
            write_body(disk, extents[written], bytes)?;
            written += 1;
        }
    }
    Ok(())
}
