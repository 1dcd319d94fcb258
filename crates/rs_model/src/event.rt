//! The events of a source while a destination reads its documents.

ghost use Rattle.std.specs.Prelude.{◌≡◌, IfOk, OnOk};
ghost use Rattle.rs_model.specs.Walk.{after_event, walk_of};

use crate::{Command, State};
use rs_record::Duplicate;
use rs_time::Moment;
use std::alloc::{AllocError, Global};

/// An event between two fetches of a destination, or a fetch.
#[derive(Debug, Drop)]
pub enum Event {
    /// A command came at this moment, and the source did it or refused it.
    Tried(Command, Moment),
    /// The machine refused a command, for want of memory or room. It is not done.
    Refused(Command),
    /// The source stopped within a command that came at this moment, and was opened again. The flag says whether the
    /// command was applied: a crash may leave either.
    Stopped(Command, Moment, bool),
    /// The source stopped between two commands, and was opened again.
    Idle,
    /// The destination fetched a document or a resource.
    Fetch,
}

/// Returns the state after these events, in their order.
///
/// # Errors
///
/// An error where a growth of memory is refused.
pub fn walk(alloc: Global, state: &State, events: &[Event]) -> Result<State, AllocError>
    ensures { IfOk result (λ walked. walked ≡ walk_of state.now events.now) }
{
    let mut walked = state.copy(alloc)?;
    for event in events {
        happen(alloc, &mut walked, event)?;
    }
    Ok(walked)
}

/// Makes one event of a walk happen.
fn happen(alloc: Global, state: &mut State, event: &Event) -> Result<(), AllocError>
    ensures { OnOk result (state.new ≡ after_event state.old event.now) }
{
    match event {
        Event::Tried(command, now) => {
            state.apply_or_skip(alloc, command.duplicate(alloc)?, *now)
        }
        Event::Stopped(command, now, stands) => {
            if *stands {
                state.apply_or_skip(alloc, command.duplicate(alloc)?, *now)?;
            }
            Ok(())
        }
        Event::Refused(_command) => Ok(()),
        Event::Idle => Ok(()),
        Event::Fetch => Ok(()),
    }
}
