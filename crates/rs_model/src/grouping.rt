//! The decision whether a group is accepted, before its step.

ghost use Rattle.std.specs.Prelude.{◌≡◌, ◌+◌, ◌<◌, max, None};
ghost use Rattle.rs_time.specs.Moment.{IsMoment, greatest};
ghost use Rattle.rs_model.specs.State.{Source};
ghost use Rattle.rs_model.specs.Step.{refusal_of};
ghost use Rattle.rs_model.specs.Grouping.{IsBefore, held_after, put_refusal_by, delete_refusal_by, change_refusal_by, item_refusal_by, counts_after_item};
ghost use Rattle.rs_model.specs.declared.command.Command.TheVariants.{Group};

use crate::{Body, Item, MOST_GROUPED, Refusal};
use rs_record::{LONGEST_BODY, MOST_ITEMS, Name};
use rs_time::Moment;

/// The facts that decide a group, apart from the names that the state holds.
#[derive(Clone, Copy, Debug, PartialEq, Eq)]
pub struct Counts {
    /// The number of resources that are held.
    pub resources: usize,
    /// The number of changes that are kept.
    pub changes: usize,
    /// The moment of the last accepted command.
    pub last: Moment,
}

impl Counts {
    /// Returns the refusal of an item, if it is refused. `held` says whether its name is held.
    fn item_refusal(&self, item: &Item, held: bool) -> Option<Refusal>
        ensures { result ≡ item_refusal_by item.now held self.now }
    {
        match item {
            Item::Put { bytes, .. } => self.put_refusal(bytes, held),
            Item::Delete { .. } => self.delete_refusal(held),
        }
    }

    /// Returns the refusal of a put of this body, if it is refused. `held` says whether its name is
    /// held.
    pub(crate) fn put_refusal(&self, bytes: &Body, held: bool) -> Option<Refusal>
        ensures { result ≡ put_refusal_by bytes.now held self.now }
    {
        if bytes.bytes().len() > LONGEST_BODY as usize {
            Some(Refusal::TooLong)
        } else if !held && self.resources >= MOST_ITEMS {
            Some(Refusal::TooManyResources)
        } else {
            self.change_refusal()
        }
    }

    /// Returns the refusal of a delete, if it is refused. `held` says whether its name is held.
    pub(crate) fn delete_refusal(&self, held: bool) -> Option<Refusal>
        ensures { result ≡ delete_refusal_by held self.now }
    {
        if held {
            self.change_refusal()
        } else {
            Some(Refusal::NotHeld)
        }
    }

    /// Returns the refusal of any change, if it is refused: no room, or no moment, is left for it.
    fn change_refusal(&self) -> Option<Refusal>
        ensures { result ≡ change_refusal_by self.now }
    {
        if self.changes >= MOST_ITEMS {
            Some(Refusal::TooManyChanges)
        } else if self.last.ms() >= Moment::GREATEST {
            Some(Refusal::Exhausted)
        } else {
            None
        }
    }

    /// Counts an accepted item that comes at `now`.
    fn pass(&mut self, item: &Item, held: bool, now: Moment)
        requires { item_refusal_by item.now held self.old ≡ None }
        ensures { self.new ≡ counts_after_item item.now held self.old now }
    {
        match item {
            Item::Put { .. } => {
                if !held {
                    self.resources += 1;
                }
            }
            Item::Delete { .. } => self.resources = self.resources.saturating_sub(1),
        }
        self.changes += 1;
        self.last = next_moment(self.last, now);
    }
}

/// Returns the cause for which a state with these counts refuses a group of these items at `now`, if it does: the first
/// cause of the first refused item, where every item is stepped in the state after the items before it. `held` says for
/// every item whether its name is held before the group. It takes no memory.
pub fn group_refusal(items: &[Item], held: &[bool], counts: Counts, now: Moment) -> Option<Refusal>
    ensures { (s : Source) → IsBefore s items.now held.now counts
        → result ≡ refusal_of s (Group items.now) now }
{
    if items.is_empty() || items.len() > MOST_GROUPED {
        return Some(Refusal::BadGroup);
    }
    let mut known = counts;
    for (i, item) in items.iter().enumerate() {
        let before = held.get(i).copied().unwrap_or(false);
        let is_held = is_held_after(&items[..i], before, item.name());
        if let Some(refusal) = known.item_refusal(item, is_held) {
            return Some(refusal);
        }
        known.pass(item, is_held, now);
    }
    None
}

/// Returns whether the name is held after these items. `held` says whether it is held before them.
fn is_held_after(items: &[Item], held: bool, name: &Name) -> bool
    ensures { result ≡ held_after items.now held name.now }
{
    let mut held = held;
    for item in items {
        if name.compare(item.name()).is_eq() {
            held = matches!(item, Item::Put { .. });
        }
    }
    held
}

/// Returns the moment of an accepted command that comes at `now`, after one at `last`.
pub(crate) fn next_moment(last: Moment, now: Moment) -> Moment
    requires { last < greatest }
    ensures value { result ≡ max now (last + 1) }
    ensures bound { IsMoment result }
{
    let moment = match Moment::after(last, now) {
        Some(moment) => moment,
        None => unreachable!(),
    };
    prove!(moment.ms() <= Moment::GREATEST);
    moment
}
