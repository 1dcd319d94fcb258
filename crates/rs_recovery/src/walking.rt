//! Laws of the walk that a source makes: the event of every command, by its answer.

ghost use Rattle.rs_recovery.specs.Walked.{CommandsMakeWalks, ClosedCommandsAreRefused};

use rs_disk::Disk;
use rs_store::laws::held_sources_rest;

/// A command of a source that holds a state is one event of a walk, and leaves the state after that event: tried if the
/// model decides the answer, refused if the machine does, and stopped if the device failed within it. A stopped command
/// may or may not have been applied; the image of the disk shows it. A closed source refuses every command and changes
/// no state.
pub fn commands_make_walks<D: Disk>()
    ensures open { CommandsMakeWalks D.state }
    ensures closed { ClosedCommandsAreRefused D.state }
{
    held_sources_rest::<D>();
}
