//! Laws of runs and of sessions, over their definitions alone.
//!
//! The functions here have no effect: the contract of a function is the law, which the check proves.

ghost use Rattle.std.specs.Prelude.{ℕ, List};
ghost use Rattle.rs_model.specs.State.{Source};
ghost use Rattle.rs_model.specs.Regular.{IsRegular};
ghost use Rattle.rs_model.specs.declared.command.Command.{Command};
ghost use Rattle.rs_image.specs.StateOfImage.{StandsFor};
ghost use Rattle.rs_store.specs.declared.running.Ack.{Ack};
ghost use Rattle.rs_store.specs.Runs.{StandsForPrefix};
ghost use Rattle.rs_store.specs.Laws.{TurnsGoOn};
ghost use Rattle.rs_recovery.specs.Below.{Below};
ghost use Rattle.rs_recovery.specs.Turns.{CommandsAreTurns, PutsComeInTurn, ReadingsIdle, CutPutsIdle};
ghost use Rattle.rs_recovery.specs.Prefixes.{RunsRecover, IdleIsRun, CommandIsRun, RunsJoin};
ghost use Rattle.rs_recovery.specs.Replies.{TurnsAreSeen};
ghost use Rattle.rs_recovery.specs.Sessions.{
  StopsEndSessions,
  SessionsBegin,
  SessionsFollow,
  SessionsGoOn,
  SessionsLast,
  HeldSourcesBegin,
  ReadSourcesHold,
  OneStanding,
  OpeningsStopToo,
  AnswersMayBeMissing,
};
ghost use Rattle.rs_recovery.specs.Served.{SessionsStand};
ghost use Rattle.rs_recovery.specs.Recovered.{YieldsHeld, HeldNamesAreLawful};
ghost use Rattle.rs_recovery.specs.Documents.{DocumentsAreOfTheState, HeldSourcesShow};

use rs_caps::laws::served::blocks_are_not_shown;
use rs_disk::Disk;
use rs_image::laws::stands_once;
use rs_model::fold_is_regular;
use rs_store::laws::{
    answers_leave_prefixes, closed_sources_stay, early_faults_leave, held_sources_rest,
    refused_is_not_done, runs_are_answered, runs_leave_prefixes, turns_go_on,
};

/// All requests to a source join into runs. Two runs, one after the other, are one run. One command is a run of its
/// own, and so is a put whose body comes from a reader. A source idles while it only reads, as for a body or for the
/// list of damaged bodies, and when the body of a put does not come whole.
pub fn runs_go_on<D: Disk>()
    ensures join { TurnsGoOn D.state }
    ensures command { CommandsAreTurns D.state }
    ensures coming { PutsComeInTurn D.state }
    ensures reading { ReadingsIdle D.state }
    ensures cut { CutPutsIdle D.state }
{
    turns_go_on::<D>();
    held_sources_rest::<D>();
    early_faults_leave::<D>();
    refused_is_not_done::<D>();
}

/// Requests to a source one by one are a run: each command by itself, reads between them, and one run after another.
/// The disk sees the commands answered in their order, so they are commands of a session. Whenever a stop comes, it
/// leaves the state after the first counted commands: all that were answered by then, and perhaps one more, which had
/// begun. At the end an open source holds the state after all of them. A closed source may lack the last one, in which
/// the device failed.
pub fn runs_recover<D: Disk>()
    ensures recover { RunsRecover D.state }
    ensures idle { IdleIsRun D.state }
    ensures command { CommandIsRun D.state }
    ensures join { RunsJoin D.state }
{
    laws_below::<D>();
    turns_go_on::<D>();
    runs_go_on::<D>();
}

/// The disk of a source sees the commands that the source answers in their turn, with these answers, and no others. So
/// the answers that a script or a request gets for its commands are those of a session.
pub fn turns_are_seen<D: Disk>()
    ensures { TurnsAreSeen D.state }
{
    laws_below::<D>();
}

/// The laws of the crates below on which runs rest.
fn laws_below<D: Disk>()
    ensures { Below D.state }
{
    stands_once();
    closed_sources_stay::<D>();
    runs_are_answered::<D>();
    runs_leave_prefixes::<D>();
}

/// Whatever the stops, commands of each session survive, and those behind a source that could be asked are the first of
/// those behind every later one. The sessions may be on disks of several types.
pub fn sessions_stand()
    ensures { SessionsStand }
{
    stands_once();
    answers_leave_prefixes();
}

/// Every run of commands that a stop ends is one more session. Its source was formatted or copied, or opened on the
/// image that the latest stop before had left.
pub fn sessions_follow()
    ensures stopped { StopsEndSessions }
    ensures first { SessionsBegin }
    ensures next { SessionsFollow }
{}

/// A source that holds a state begins a session, before it gets a request. The session goes on from call to call. Its
/// source answers commands, is copied or read, and answers more from the state that it still holds.
pub fn sessions_go_on<D: Disk>()
    ensures begins { HeldSourcesBegin D.state }
    ensures joined { SessionsGoOn }
    ensures lasts { SessionsLast }
    ensures held { ReadSourcesHold D.state }
{
    held_sources_rest::<D>();
}

/// The images that the stops left determine how many commands of each session survive.
pub fn one_standing()
    ensures { OneStanding }
{
    stands_once();
}

/// A session may lack its last answer. A machine that stops within a command never answers it.
pub fn answers_may_be_missing()
    ensures { AnswersMayBeMissing }
{}

/// A stop within an opening is a stop of the session before it.
pub fn openings_stop_too()
    ensures { OpeningsStopToo }
{}

/// A document that a source's lists show is the document of the state in these lists.
pub fn documents_are_of_the_state()
    ensures { DocumentsAreOfTheState }
{
    blocks_are_not_shown();
}

/// A source that holds a state shows the documents of this state.
pub fn held_sources_show<D: Disk>()
    ensures { HeldSourcesShow D.state }
{
    documents_are_of_the_state();
}

/// Every name that is held in the state of an image is lawful.
pub fn held_names_are_lawful()
    ensures { HeldNamesAreLawful }
{}

/// Every state that a stop within a run of a regular source may leave is regular. The publication, followed by the
/// changes after its moment, yields the held resources.
pub fn stops_leave_regular()
    ensures regular { (s t : Source) (commands : List (Command × ℕ)) (acks : List Ack)
        (m : ℕ) (image : List ℕ)
        → IsRegular s → StandsForPrefix s commands acks m image → StandsFor image t → IsRegular t }
    ensures yields { (s t : Source) (commands : List (Command × ℕ)) (acks : List Ack)
        (m : ℕ) (image : List ℕ)
        → IsRegular s → StandsForPrefix s commands acks m image → StandsFor image t → YieldsHeld t }
{
    stands_once();
    fold_is_regular();
}
