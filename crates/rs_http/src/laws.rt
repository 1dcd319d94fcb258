//! Laws of the definitions that the contract of a request cites.
//!
//! The functions here have no effect: their contracts are the laws, which the check proves.

ghost use Rattle.rs_http.specs.Laws.{RequestsAreRuns, BrokenBodiesAreRuns, RequestsRecover, BrokenBodiesRecover, RequestsMakeWalks, BrokenBodiesMakeNoEvent};
ghost use Rattle.rs_http.specs.Told.{RequestsGetOne, BrokenBodiesIdle};

use rs_caps::laws::answered::paths_are_answered;
use rs_disk::Disk;
use rs_recovery::laws::{runs_go_on, runs_recover};
use rs_recovery::walking::commands_make_walks;
use rs_store::laws::held_sources_rest;

/// A request is a run of its one command if that counts, and of no command otherwise. If the reader failed in the body
/// of a put or of a group, the request is a run of no command. So requests join to runs, as the laws of rs_recovery
/// join runs.
pub fn requests_are_runs<D: Disk>()
    ensures answered { RequestsAreRuns D.state }
    ensures broken { BrokenBodiesAreRuns D.state }
{
    held_sources_rest::<D>();
    runs_go_on::<D>();
    runs_recover::<D>();
}

/// Whenever the disk stops within a request, it holds the state before, or the state after the command of the request
/// that counts. If the reader failed in the body of a put or of a group, it holds the state before.
pub fn requests_recover<D: Disk>()
    ensures answered { RequestsRecover D.state }
    ensures broken { BrokenBodiesRecover D.state }
{
    requests_are_runs::<D>();
    runs_recover::<D>();
}

/// The source gets at most one command for a request, the one that the request asks for, and the answer is the outcome.
/// If the reader failed in the body of a put or of a group, the source gets no command.
pub fn requests_get_one<D: Disk>()
    ensures answered { RequestsGetOne D.state }
    ensures broken { BrokenBodiesIdle D.state }
{
    held_sources_rest::<D>();
    runs_go_on::<D>();
}

/// A request makes a walk of at most one event. A command is tried if the model decides the answer, refused if the
/// machine does, and stopped if the device failed in it. A GET fetches the bytes that are answered at its path. At the
/// end every image of the disk represents the state after the walk. If the reader failed in the body of a put or of a
/// group, there is no event.
pub fn requests_make_walks<D: Disk>()
    ensures answered { RequestsMakeWalks D.state }
    ensures broken { BrokenBodiesMakeNoEvent D.state }
{
    held_sources_rest::<D>();
    runs_go_on::<D>();
    commands_make_walks::<D>();
    paths_are_answered();
}
