//! Laws of a source's answers, from the definitions alone.
//!
//! The functions here do nothing. The contract of a function is a law that the check proves.

ghost use Rattle.rs_store.specs.Laws.{EarlyFaultsLeave, HeldStands, RestIsIdle, TurnsGoOn, CallsRise, ClosedStays, DeviceCloses, ClosedCountNone, DeviceOrNoDoubt, RefusedIsNotDone, RunsAreAnswered, OpenHoldsAnswered, AnswersLeavePrefixes, RunsLeavePrefixes, OpenHoldsAll};

use rs_disk::Disk;

/// If [`put_from`](crate::Source::put_from) answers [`Device`](crate::Refusal::Device) before all bytes of the body
/// came, every image of a crash within the call and after it represents the state that the source held.
///
/// The reason: the answer is the same for all bodies that begin with the bytes that came, and no image represents the
/// states after two different bodies.
pub fn early_faults_leave<D: Disk>()
    ensures { EarlyFaultsLeave D.state }
{}

/// Every image of the disk of a source that holds a state represents that state. A source without calls idles.
pub fn held_sources_rest<D: Disk>()
    ensures stands { HeldStands D.state }
    ensures idle { RestIsIdle D.state }
{}

/// Two runs of commands in sequence are one run. No run lowers the disk's count of calls.
pub fn turns_go_on<D: Disk>()
    ensures join { TurnsGoOn D.state }
    ensures calls { CallsRise D.state }
{}

/// [`Device`](crate::Refusal::Device) closes a source. A closed source answers [`Closed`](crate::Refusal::Closed) to
/// all commands and stays closed. None of these commands counts.
pub fn closed_sources_stay<D: Disk>()
    ensures closes { DeviceCloses D.state }
    ensures stays { ClosedStays D.state }
    ensures counts { ClosedCountNone }
{}

/// A command with any refusal but [`Device`](crate::Refusal::Device) is not done.
pub fn refused_is_not_done<D: Disk>()
    ensures kinds { DeviceOrNoDoubt }
    ensures kept { RefusedIsNotDone D.state }
{}

/// The disk of a source that holds a state sees the commands of a run answered, and the source then holds
/// the state that the answers leave.
pub fn runs_are_answered<D: Disk>()
    ensures answered { RunsAreAnswered D.state }
    ensures holds { OpenHoldsAnswered D.state }
{}

/// When commands are answered, a stop at any moment leaves a prefix of the counted ones.
pub fn answers_leave_prefixes()
    ensures { AnswersLeavePrefixes }
{}

/// A stop at any moment of a run leaves a prefix of its counted commands. At the end an open source holds
/// the state after all of them.
pub fn runs_leave_prefixes<D: Disk>()
    ensures moments { RunsLeavePrefixes D.state }
    ensures end { OpenHoldsAll D.state }
{}
