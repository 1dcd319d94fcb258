//! The state of a source, and the steps that commands make.

ghost use Rattle.std.specs.Prelude.{◌≡◌, ◌≤◌, ◌↔◌, IsTrue, length, map, None, IfOk, OnOk, OnErr, IsErrOf};
ghost use Rattle.rs_record.specs.Limits.{longest_body};
ghost use Rattle.rs_record.specs.Changes.{bound};
ghost use Rattle.rs_model.specs.Names.{is_ordered, bind as bind_to};
ghost use Rattle.rs_model.specs.State.{start_of, facts_of, entries};
ghost use Rattle.rs_model.specs.Listed.{record_of};
ghost use Rattle.rs_model.specs.Step.{step as step_of, state_after, fold_of, refusal_of, next_state, reply_to, is_held};
ghost use Rattle.rs_time.specs.Moment.{IsMoment};
ghost use Rattle.rs_model.specs.Lawful.{AreFacts};
ghost use Rattle.rs_model.specs.declared.command.Command.TheVariants.{Put, Delete, Publish};

mod dropped;
mod grouped;
mod shown;

use self::dropped::last_moment;
pub use self::shown::states_are_lawful;
use crate::grouping::next_moment;
use crate::names::{bind, place_in_order, unbind};
use crate::{Body, Command, Counts, Entry, Held, Refusal, Reply, StepError};
use rs_extent::Extent;
use rs_fixity::digests_of;
use rs_record::{Base, Change, Duplicate, Facts, MediaType, Name, Record, duplicate_all};
use rs_time::Moment;
use std::alloc::{AllocError, Global};
use std::marker::Model;

/// The state of a source: its base and item limit, the resources that it holds, the changes that it keeps, and its
/// latest publication. Contracts see the record `Source` of these.
///
/// The item limit is from 2 to 4,000. At most 50,000 resources are held and at most 50,000 are listed, both in strictly
/// ascending order of the bytes of their names. At most 50,000 changes are kept, and the number of the first part is at
/// most 253,402,300,799,999. All values are lawful.
#[derive(Debug, Drop)]
pub struct State {
    base: Base,
    limit: u16,
    start: Moment,
    last: Moment,
    held: Vec<(Name, Held)>,
    changes: Vec<Change>,
    number: u64,
    at: Moment,
    // Records of empty extents: the lists are written from them.
    listed: Vec<Record>,
    // The number of the first kept part of the changes.
    first: u64,
    // The moment of the last change before the kept ones, or of formatting.
    begin: Moment,
}

impl Model for State {
    ghost use Rattle.rs_model.specs.State.{Source};

    ghost Value = { Source };

    ghost use Rattle.rs_model.specs.StateFields.{source_of, AreSoundFields};

    ghost view = { source_of };

    ghost invariant = { AreSoundFields };
}

impl State {
    /// Returns a source formatted at this moment: it holds no resources, keeps no changes, and has published the empty
    /// list as number 0. A list of more than `limit` items, 2 to 4,000, is cut into parts of that many.
    pub fn start(alloc: Global, base: Base, limit: u16, moment: Moment) -> State
        requires low { 2 ≤ limit }
        requires high { limit ≤ 4000 }
        ensures { result ≡ start_of base limit moment }
    {
        prove!(base.bytes().len() <= 128);
        prove!(moment.ms() <= Moment::GREATEST);
        State {
            base,
            limit,
            start: moment,
            last: moment,
            held: Vec::new(alloc),
            changes: Vec::new(alloc),
            number: 0,
            at: moment,
            listed: Vec::new(alloc),
            first: 0,
            begin: moment,
        }
    }

    /// Returns a copy of the state.
    ///
    /// # Errors
    ///
    /// An error where a growth of memory is refused.
    pub fn copy(&self, alloc: Global) -> Result<State, AllocError>
        ensures { IfOk result (λ copied. copied ≡ self.now) }
    {
        Ok(State {
            base: self.base.copy(alloc)?,
            limit: self.limit,
            start: self.start,
            last: self.last,
            held: duplicate_all(alloc, self.held.as_slice())?,
            changes: duplicate_all(alloc, self.changes.as_slice())?,
            number: self.number,
            at: self.at,
            listed: duplicate_all(alloc, self.listed.as_slice())?,
            first: self.first,
            begin: self.begin,
        })
    }

    /// Returns the state after a command that comes at the moment `now`, and the reply to it. This state stays.
    ///
    /// The command is accepted at `now`, or one millisecond after the last accepted command where that is later.
    ///
    /// # Errors
    ///
    /// [`StepError::Refused`] for the first cause of [`Refusal`] that holds. [`StepError::NoMemory`] where a growth of
    /// memory is refused, and never for a refused command.
    pub fn step(
        &self,
        alloc: Global,
        command: &Command,
        now: Moment,
    ) -> Result<(State, Reply), StepError>
        ensures accepted { IfOk result (λ next. step_of self.now command.now now ≡ Ok next) }
        ensures refused { (r : Refusal) →
            IsErrOf result (StepError.Refused r) ↔ (step_of self.now command.now now ≡ Err r) }
    {
        if let Some(refusal) = self.refusal(command, now) {
            return Err(StepError::Refused(refusal));
        }
        let mut next = self.copy(alloc)?;
        let reply = next.apply(alloc, command.duplicate(alloc)?, now)?;
        Ok((next, reply))
    }

    /// Makes the same step in place: this state becomes the next one. It takes the command, so it copies no body.
    ///
    /// # Errors
    ///
    /// Those of [`State::step`]. The state is then as it was.
    pub fn apply(
        &mut self,
        alloc: Global,
        command: Command,
        now: Moment,
    ) -> Result<Reply, StepError>
        ensures accepted { IfOk result (λ reply.
            step_of self.old command now ≡ Ok (self.new, reply)) }
        ensures refused { (r : Refusal) →
            IsErrOf result (StepError.Refused r) ↔ (step_of self.old command now ≡ Err r) }
        ensures unchanged { OnErr result (self.new ≡ self.old) }
    {
        if let Some(refusal) = self.refusal(&command, now) {
            return Err(StepError::Refused(refusal));
        }
        let moment = next_moment(self.last, now);
        let accepted = match command {
            Command::Put { name, kind, bytes } => self.put(alloc, name, kind, bytes, moment),
            Command::Delete { name } => self.delete(name, moment),
            Command::Publish => self.publish(alloc, moment),
            Command::Group(group) => self.group(alloc, group, now),
        };
        Ok(accepted?)
    }

    /// Returns the state after these commands in their order, at their moments. It skips refused commands.
    ///
    /// # Errors
    ///
    /// An error where a growth of memory is refused.
    pub fn fold(&self, alloc: Global, commands: &[(Command, Moment)]) -> Result<State, AllocError>
        ensures { IfOk result (λ state. state ≡ fold_of self.now commands.now) }
    {
        let mut state = self.copy(alloc)?;
        for (command, now) in commands {
            state.apply_or_skip(alloc, command.duplicate(alloc)?, *now)?;
        }
        Ok(state)
    }

    /// Applies one command of a run, or skips it if it is refused.
    pub(crate) fn apply_or_skip(
        &mut self,
        alloc: Global,
        command: Command,
        now: Moment,
    ) -> Result<(), AllocError>
        ensures { OnOk result (self.new ≡ state_after self.old (step_of self.old command now)) }
    {
        match self.apply(alloc, command, now) {
            Ok(_) => Ok(()),
            Err(StepError::Refused(_)) => Ok(()),
            Err(StepError::NoMemory) => Err(AllocError),
        }
    }

    /// Returns whether the name is held.
    fn holds(&self, name: &Name) -> bool
        ensures { result ≡ is_held self.now name.now }
    {
        place_in_order(self.held.as_slice(), name).is_ok()
    }

    /// Returns the facts that decide a put, a delete or a group, apart from the held names.
    fn counts(&self) -> Counts
        ensures resources { result.resources ≡ length self.now.held }
        ensures changes { result.changes ≡ length self.now.changes }
        ensures last { result.last ≡ self.now.last }
        ensures ordered { IsTrue (is_ordered self.now.held) }
    {
        Counts {
            resources: self.resources(),
            changes: self.changes.len(),
            last: self.last(),
        }
    }

    /// Returns the refusal of a command, if it is refused.
    fn refusal(&self, command: &Command, now: Moment) -> Option<Refusal>
        ensures { result ≡ refusal_of self.now command.now now }
    {
        match command {
            Command::Put { name, bytes, .. } => {
                self.counts().put_refusal(bytes, self.holds(name))
            }
            Command::Delete { name } => self.counts().delete_refusal(self.holds(name)),
            Command::Publish => {
                if self.last.ms() >= Moment::GREATEST
                    || self.number == u64::MAX
                    || self.is_out_of_parts()
                {
                    Some(Refusal::Exhausted)
                } else {
                    None
                }
            }
            Command::Group(group) => self.group_refusal(group, now),
        }
    }

    /// Binds the name and appends the change.
    fn put(
        &mut self,
        alloc: Global,
        name: Name,
        kind: MediaType,
        bytes: Body,
        moment: Moment,
    ) -> Result<Reply, AllocError>
        requires accepted { refusal_of self.old (Put name kind bytes) moment ≡ None }
        requires moment { IsMoment moment }
        ensures state { IfOk result (λ reply.
            self.new ≡ next_state self.old (Put name kind bytes) moment) }
        ensures reply { IfOk result (λ reply.
            reply ≡ reply_to self.old (Put name kind bytes) moment) }
        ensures unchanged { OnErr result (self.new ≡ self.old) }
    {
        let again = self.holds(&name);
        self.changes.reserve(1)?;
        let change = bind_body(alloc, &mut self.held, name, kind, bytes, again, moment)?;
        self.changes.push(change).unwrap();
        self.last = moment;
        if again {
            Ok(Reply::Updated(moment))
        } else {
            Ok(Reply::Created(moment))
        }
    }

    /// Unbinds the name and appends the change.
    fn delete(&mut self, name: Name, moment: Moment) -> Result<Reply, AllocError>
        requires accepted { refusal_of self.old (Delete name) moment ≡ None }
        requires moment { IsMoment moment }
        ensures state { IfOk result (λ reply. self.new ≡ next_state self.old (Delete name) moment) }
        ensures reply { IfOk result (λ reply. reply ≡ reply_to self.old (Delete name) moment) }
        ensures unchanged { OnErr result (self.new ≡ self.old) }
    {
        self.changes.reserve(1)?;
        unbind(&mut self.held, &name);
        self.changes.push(Change::deleted(name, moment)).unwrap();
        self.last = moment;
        Ok(Reply::Deleted(moment))
    }

    /// Lists the held resources, and drops the full parts that are not after the publication before. No step fails once
    /// the list is made.
    fn publish(&mut self, alloc: Global, moment: Moment) -> Result<Reply, AllocError>
        requires accepted { refusal_of self.old Publish moment ≡ None }
        requires moment { IsMoment moment }
        ensures state { IfOk result (λ reply. self.new ≡ next_state self.old Publish moment) }
        ensures reply { IfOk result (λ reply. reply ≡ reply_to self.old Publish moment) }
        ensures unchanged { OnErr result (self.new ≡ self.old) }
    {
        let parts = self.dropped_parts();
        let gone = parts * self.limit as usize;
        let begin = last_moment(self.begin, &self.changes[..gone]);
        self.listed = records(alloc, self.held.as_slice())?;
        self.changes.drain(..gone);
        self.first += parts as u64;
        self.begin = begin;
        self.number += 1;
        self.at = moment;
        self.last = moment;
        Ok(Reply::Published(self.number, moment))
    }
}

/// Binds the name to a body in the held resources, and returns the change for it.
fn bind_body(
    alloc: Global,
    held: &mut Vec<(Name, Held)>,
    name: Name,
    kind: MediaType,
    bytes: Body,
    again: bool,
    moment: Moment,
) -> Result<Change, AllocError>
    requires ordered { IsTrue (is_ordered held.old.items) }
    requires short { length bytes ≤ longest_body }
    ensures bound { OnOk result (held.new.items ≡ bind_to name
        (record { bytes = bytes; entry = record { facts = facts_of kind bytes; moment = moment } })
        held.old.items) }
    ensures change { IfOk result (λ change.
        change ≡ bound name again moment (facts_of kind bytes)) }
    ensures lawful { OnOk result (AreFacts (facts_of kind bytes)) }
    ensures unchanged { OnErr result (held.new.items ≡ held.old.items) }
{
    let facts = facts(kind, &bytes);
    let change = bound_change(alloc, &name, again, moment, &facts)?;
    let entry = Entry { facts, moment };
    bind(held, name, Held { bytes, entry })?;
    Ok(change)
}

/// Returns the change that binds the name to these facts.
fn bound_change(
    alloc: Global,
    name: &Name,
    again: bool,
    moment: Moment,
    facts: &Facts,
) -> Result<Change, AllocError>
    ensures { IfOk result (λ change. change ≡ bound name.now again moment facts.now) }
{
    Ok(Change::bound(name.copy(alloc)?, again, moment, facts.copy(alloc)?))
}

/// Returns the facts of a body.
fn facts(kind: MediaType, bytes: &Body) -> Facts
    requires { length bytes.now ≤ longest_body }
    ensures value { result ≡ facts_of kind bytes.now }
    ensures lawful { AreFacts (facts_of kind bytes.now) }
{
    prove!(kind.bytes().len() <= 100);
    Facts {
        kind,
        length: bytes.bytes().len() as u32,
        digests: digests_of(bytes.bytes()),
    }
}

/// Returns the entries of the held resources, as records.
fn records(alloc: Global, held: &[(Name, Held)]) -> Result<Vec<Record>, AllocError>
    ensures { IfOk result (λ records. records.items ≡ map record_of (entries held.now)) }
{
    let mut records = Vec::new(alloc);
    for (name, held) in held {
        records.push(record(alloc, name, &held.entry)?)?;
    }
    Ok(records)
}

/// Returns an entry as a record.
fn record(alloc: Global, name: &Name, entry: &Entry) -> Result<Record, AllocError>
    ensures { IfOk result (λ made. made ≡ record_of (name.now, entry.now)) }
{
    let facts = &entry.facts;
    Ok(Record {
        name: name.copy(alloc)?,
        kind: facts.kind.copy(alloc)?,
        length: facts.length,
        digests: facts.digests,
        moment: entry.moment,
        extent: Extent {
            first: 0,
            blocks: 0,
        },
    })
}
