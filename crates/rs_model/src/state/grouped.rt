//! The steps of groups.

ghost use Rattle.std.specs.Prelude.{◌≡◌, None, IfOk, OnOk, OnErr};
ghost use Rattle.rs_model.specs.Step.{first_cause, refusal_of, next_state, reply_to, moment_at, item_causes, after_item};
ghost use Rattle.rs_model.specs.declared.command.Command.TheVariants as commands;

use super::State;
use crate::grouping::{group_refusal, next_moment};
use crate::{Group, Item, MOST_GROUPED, Refusal, Reply};
use rs_time::Moment;
use std::alloc::{AllocError, Global};

impl State {
    /// Returns the refusal of a group, if it is refused.
    pub(super) fn group_refusal(&self, group: &Group, now: Moment) -> Option<Refusal>
        ensures { result ≡ refusal_of self.now (commands.Group group.now) now }
    {
        let items = group.items();
        if items.len() > MOST_GROUPED {
            return Some(Refusal::BadGroup);
        }
        let mut held = [false; MOST_GROUPED];
        for (i, item) in items.iter().enumerate() {
            held[i] = self.holds(item.name());
        }
        group_refusal(items, &held[..items.len()], self.counts(), now)
    }

    /// Applies the items of a group that comes at `now`, in their order. It works on a copy, so that after an error no
    /// item is applied.
    pub(super) fn group(
        &mut self,
        alloc: Global,
        group: Group,
        now: Moment,
    ) -> Result<Reply, AllocError>
        requires accepted { refusal_of self.old (commands.Group group) now ≡ None }
        ensures state { IfOk result (λ reply.
            self.new ≡ next_state self.old (commands.Group group) (moment_at self.old now)) }
        ensures reply { IfOk result (λ reply.
            reply ≡ reply_to self.old (commands.Group group) (moment_at self.old now)) }
        ensures unchanged { OnErr result (self.new ≡ self.old) }
    {
        let items = group.into_items();
        let count = items.len() as u8;
        let first = next_moment(self.last, now);
        let mut next = self.copy(alloc)?;
        for item in items {
            next.accept(alloc, item, now)?;
        }
        *self = next;
        Ok(Reply::Grouped(count, first))
    }

    /// Does one item that comes at `now`.
    fn accept(&mut self, alloc: Global, item: Item, now: Moment) -> Result<(), AllocError>
        requires accepted { first_cause (item_causes self.old item) ≡ None }
        ensures { OnOk result (self.new ≡ after_item self.old item (moment_at self.old now)) }
    {
        let moment = next_moment(self.last, now);
        match item {
            Item::Put { name, kind, bytes } => self.put(alloc, name, kind, bytes, moment)?,
            Item::Delete { name } => self.delete(name, moment)?,
        };
        Ok(())
    }
}
