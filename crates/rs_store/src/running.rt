//! Runs of commands.

ghost use Rattle.std.specs.Prelude.{◌≡◌, false, OnErr, IfErr, IfOk, IsErrOf, IsTrue};
ghost use Rattle.std.specs.List.{AllZip};
ghost use Rattle.rs_disk.specs.Leaves.{Leaves};
ghost use Rattle.rs_model.specs.State.{Source as State};
ghost use Rattle.rs_model.specs.Step.{fold_of};
ghost use Rattle.rs_store.specs.Source.{Holds};
ghost use Rattle.rs_store.specs.Counted.{counted_commands};
ghost use Rattle.rs_store.specs.Laws.{AreNotDevice};
ghost use Rattle.rs_store.specs.Runs.{InTurn, StandsForPrefix, Holding, AreAnswered};

use crate::{Refusal, Source};
use rs_disk::Disk;
use rs_model::{Command, Reply};
use rs_time::Moment;

/// The answer to a command of a run.
#[derive(Clone, Copy, Debug, PartialEq, Eq)]
pub struct Ack {
    /// The answer.
    pub reply: Result<Reply, Refusal>,
    /// The disk's count of calls at the answer.
    pub at_call: u64,
}

impl<D: Disk> Source<D> {
    /// Does these commands in their order, at their moments, and returns their answers. It goes on after a refusal.
    /// After [`Refusal::Device`] all further answers are [`Refusal::Closed`].
    ///
    /// The *counted* commands are those with the answer Ok, and then the one with the answer [`Refusal::Device`], if
    /// any. A crash at any moment of the run leaves the state after a prefix of them. The prefix has all commands with
    /// the answer Ok by then and none that had not begun.
    ///
    /// # Errors
    ///
    /// [`Refusal::NoMemory`] if memory for the answers runs out, before the first command.
    pub fn run(&mut self, commands: &[(Command, Moment)]) -> Result<Vec<Ack>, Refusal>
        // The answer to a command is the one that the source gives to it.
        ensures in_turn { IfOk result
            (λ acks. InTurn D.state self.old commands.now acks.items self.new) }

        // If the source holds a state, its disk sees these commands answered from that state on: the model accepts
        // every command that is answered Ok, with that reply and that next state; after Device all answers are Closed;
        // and within a command every image of a crash represents the state before it or after it.
        ensures answered { IfOk result (λ acks. (s : State) → Holds D.state self.old s
            → AreAnswered (D.state self.old.disk) (Holding s) commands.now acks.items
            (D.state self.new.disk)) }

        // So a crash at any moment leaves a prefix of the counted commands that has all acknowledged ones, and at the
        // end an open source holds them all.
        ensures any_moment { IfOk result (λ acks. (s : State) → Holds D.state self.old s
            → Leaves (D.state self.old.disk) (D.state self.new.disk)
            (StandsForPrefix s commands.now acks.items)) }
        ensures at_exit { IfOk result (λ acks. (s : State) → Holds D.state self.old s
            → self.new.is_closed ≡ false
            → Holds D.state self.new (fold_of s (counted_commands commands.now acks.items))) }

        // A closed source answers Closed to all commands, and nothing changes. A source that answered Device is closed,
        // so all further calls come to a closed source.
        ensures closed { IfOk result (λ acks. IsTrue self.old.is_closed → (self.new ≡ self.old)
            × AllZip (λ command a. IsErrOf a.reply Refusal.Closed) commands.now acks.items) }
        ensures closes { IfOk result (λ acks. self.new.is_closed ≡ false
            → AreNotDevice acks.items) }

        ensures only { IfErr result (λ refusal. refusal ≡ Refusal.NoMemory) }
        ensures untouched { OnErr result (self.new ≡ self.old) }
    {
        let mut acks = Vec::with_capacity(self.alloc, commands.len())?;
        for (command, now) in commands {
            let reply = self.command(command, *now);
            let at_call = self.calls();
            // There is room for it.
            let _ = acks.push(Ack { reply, at_call });
        }
        Ok(acks)
    }

    /// Returns the disk's count of calls.
    fn calls(&self) -> u64
        ensures { result ≡ (D.state self.now.disk).calls }
    {
        self.disk.calls()
    }
}
