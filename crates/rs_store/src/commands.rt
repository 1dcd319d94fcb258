//! The commands of a source.

ghost use Rattle.std.specs.Prelude.{◌≡◌, ◌<◌, ◌+◌, ◌^◌, ℕ, List, length, false, None, IfOk, IfErr, IsErrOf};
ghost use Rattle.rs_model.specs.Step.{moment_at};
ghost use Rattle.rs_model.specs.declared.command.Command.{Command};
ghost use Rattle.rs_model.specs.declared.command.Command.TheVariants.{Put, Delete, Publish};
ghost use Rattle.rs_store.specs.Source.{Stored, rooted_in, state_of};
ghost use Rattle.rs_store.specs.Refusals.{decided};
ghost use Rattle.rs_plan.specs.Room.{bodies_of_command};
ghost use Rattle.rs_plan.specs.Allowed.{MayPut};
ghost use Rattle.rs_plan.specs.declared.planning.PlanFault.{PlanFault};
ghost use Rattle.rs_plan.specs.Plans.{IsPlanned, IsFullFor};
ghost use Rattle.rs_store.specs.Writing.{of_plan, IsPlanOfSome, HasWrittenBodies};
ghost use Rattle.rs_store.specs.Answered.{Answers};
ghost use Rattle.rs_store.specs.Received.{IsLate};

use crate::source::rooted_by;
use crate::writing::write_lists;
use crate::{Refusal, Source};
use rs_body::write_body;
use rs_disk::Disk;
use rs_model::{Command, Reply};
use rs_page::StoreFault;
use rs_plan::{Plan, PlanFault, plan_delete, plan_publish, plan_put};
use rs_record::{MediaType, Name};
use rs_time::Moment;
use std::mem::swap;

impl From<PlanFault> for Refusal {
    ghost from_gives = { λ fault refusal. refusal ≡ of_plan fault };

    fn from(fault: PlanFault) -> Refusal {
        match fault {
            PlanFault::Full => Refusal::Full,
            PlanFault::NoMemory => Refusal::NoMemory,
        }
    }
}

impl<D: Disk> Source<D> {
    /// Does a command as [`Source::put`], [`Source::delete`], [`Source::publish`] or [`Source::group`] does it, with
    /// their errors.
    pub fn command(&mut self, command: &Command, now: Moment) -> Result<Reply, Refusal>
        ensures { Answers D.state self.old self.new command.now now result }
    {
        match command {
            Command::Put { name, kind, bytes } => self.put(name, kind, bytes.bytes(), now),
            Command::Delete { name } => self.delete(name, now),
            Command::Publish => self.publish(now),
            Command::Group(group) => self.group(group.items(), now),
        }
    }

    /// Binds the name to these bytes, with this media type: creates the resource, or updates it if the name is held.
    /// The source accepts the command at the moment `now`, or one millisecond after the last accepted command if that
    /// is later.
    ///
    /// The reply has that moment. It comes once the disk has settled: from then on the source holds the resource, also
    /// after a crash. A crash before the reply leaves the old resource or the new one.
    ///
    /// # Errors
    ///
    /// - [`Refusal::Closed`] after a fault of the device.
    /// - [`Refusal::TooLong`], [`Refusal::TooManyResources`], [`Refusal::TooManyChanges`] and [`Refusal::Exhausted`],
    ///   the first whose cause is there, before any use of memory or the disk.
    /// - [`Refusal::Full`] if the body, a page or the directory has no run of free blocks.
    /// - [`Refusal::NoMemory`] if memory runs out.
    /// - [`Refusal::Device`] if a device call failed. This closes the source, and the disk holds the old resource or
    ///   the new one.
    ///
    /// All errors but `Device` change nothing.
    pub fn put(
        &mut self,
        name: &Name,
        kind: &MediaType,
        bytes: &[u8],
        now: Moment,
    ) -> Result<Reply, Refusal>
        ensures { Answers D.state self.old self.new (Put name.now kind.now bytes.now) now result }
    {
        let moment = self.accept_put(name, bytes.len() as u64, now)?;
        let mut plan = self.planned_put(name, kind, bytes, moment)?;
        self.carry_out_put(&mut plan, bytes)
    }

    /// Plans a put at this moment.
    fn planned_put(
        &mut self,
        name: &Name,
        kind: &MediaType,
        bytes: &[u8],
        moment: Moment,
    ) -> Result<Plan, PlanFault>
        requires may { MayPut self.old.contents name.now (length bytes.now) moment }
        ensures same { self.new ≡ self.old }
        ensures planned { IfOk result (IsPlanned (rooted_in D.state self.old)
            (Put name.now kind.now bytes.now) moment) }
        ensures full { IsErrOf result PlanFault.Full
            → IsFullFor (rooted_in D.state self.old) (Put name.now kind.now bytes.now) moment }
    {
        let rooted = rooted_by(&self.disk, &self.slots, &self.contents);
        plan_put(
            self.alloc,
            &mut self.used,
            &rooted,
            name,
            kind,
            bytes,
            moment,
        )
    }

    /// Writes the body of a planned put, and then the lists.
    fn carry_out_put(&mut self, plan: &mut Plan, bytes: &[u8]) -> Result<Reply, Refusal>
        requires is_open { self.old.is_closed ≡ false }
        requires spare { self.old.slots.root.generation + 1 < 2 ^ 64 }
        requires planned { (name kind : List ℕ) × (moment : ℕ)
            × IsPlanned (rooted_in D.state self.old) (Put name kind bytes.now) moment plan.old }
        ensures { (name kind : List ℕ) (now : ℕ)
            → decided self.old (state_of D.state self.old) (Put name kind bytes.now) now ≡ None
            → IsPlanned (rooted_in D.state self.old) (Put name kind bytes.now)
            (moment_at (state_of D.state self.old) now) plan.old
            → Answers D.state self.old self.new (Put name kind bytes.now) now result }
    {
        if write_body(&mut self.disk, plan.bodies[0], bytes).is_err() {
            self.is_closed = true;
            return Err(Refusal::Device);
        }
        self.finish(plan)
    }

    /// Unbinds the name: deletes the resource. Moment and reply are as with [`Source::put`].
    ///
    /// # Errors
    ///
    /// As with [`Source::put`], but [`Refusal::NotHeld`] replaces [`Refusal::TooLong`] and
    /// [`Refusal::TooManyResources`].
    pub fn delete(&mut self, name: &Name, now: Moment) -> Result<Reply, Refusal>
        ensures { Answers D.state self.old self.new (Delete name.now) now result }
    {
        let moment = self.accept_delete(name, now)?;
        let rooted = rooted_by(&self.disk, &self.slots, &self.contents);
        let mut plan = plan_delete(self.alloc, &mut self.used, &rooted, name, moment)?;
        self.finish(&mut plan)
    }

    /// Publishes all held resources, and drops all full parts of the changes whose last change is not after the
    /// previous publication. Moment and reply are as with [`Source::put`], but the reply also has the number of the
    /// publication.
    ///
    /// # Errors
    ///
    /// As with [`Source::put`], without [`Refusal::TooLong`], [`Refusal::TooManyResources`] and
    /// [`Refusal::TooManyChanges`].
    pub fn publish(&mut self, now: Moment) -> Result<Reply, Refusal>
        ensures { Answers D.state self.old self.new Publish now result }
    {
        let moment = self.accept_publish(now)?;
        let rooted = rooted_by(&self.disk, &self.slots, &self.contents);
        let mut plan = plan_publish(self.alloc, &mut self.used, &rooted, moment)?;
        self.finish(&mut plan)
    }

    /// Writes the lists of a plan whose bodies are written, and commits its root. Then it takes over the plan's lists
    /// and used blocks, and returns the plan's reply. The plan keeps the old lists.
    ///
    /// Its promise covers the time since before the bodies were written.
    pub(crate) fn finish(&mut self, plan: &mut Plan) -> Result<Reply, Refusal>
        requires is_open { self.old.is_closed ≡ false }
        requires spare { self.old.slots.root.generation + 1 < 2 ^ 64 }
        requires planned { IsPlanOfSome (rooted_in D.state self.old) plan.old }
        ensures answers { (start : Stored D) (command : Command) (now : ℕ)
            → HasWrittenBodies D.state start self.old plan.old (bodies_of_command command)
            → decided start (state_of D.state start) command now ≡ None
            → IsPlanned (rooted_in D.state start) command
            (moment_at (state_of D.state start) now) plan.old
            → Answers D.state start self.new command now result }
        ensures late { IfErr result IsLate }
    {
        let written = match write_lists(self.alloc, &mut self.disk, plan) {
            Ok(written) => written,
            Err(StoreFault::NoMemory) => return Err(Refusal::NoMemory),
            Err(StoreFault::Device) => {
                self.is_closed = true;
                return Err(Refusal::Device);
            }
        };
        let committed = self.slots.commit(
            &mut self.disk,
            plan.directory,
            written.length,
            &written.sha256,
        );
        match committed {
            Ok(()) => {}
            Err(_) => {
                self.is_closed = true;
                return Err(Refusal::Device);
            }
        }
        swap(&mut self.contents, &mut plan.contents);
        self.used.take_each(&plan.taken);
        self.used.give_each(&plan.freed);
        Ok(plan.reply)
    }
}
