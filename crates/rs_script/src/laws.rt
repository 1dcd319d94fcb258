//! Laws of the definitions: a script does the same as the model, and its commands make the state that it leaves.

ghost use Rattle.std.specs.Prelude.{◌≡◌, ℕ, List};
ghost use Rattle.rs_script.specs.Lines.{Splits};
ghost use Rattle.rs_script.specs.Script.{ScriptsAreRuns, ScriptsRecover, ScriptsMakeWalks, ScriptsFollowTheModel, ScriptsTellTheFold, ScriptsHoldTheFold};
ghost use Rattle.rs_script.specs.Statements.{Statement, IsScript};
ghost use Rattle.rs_script.specs.Stopped.{ScriptsSplit};
ghost use Rattle.rs_script.specs.Told.{ScriptsDoStatements, ScriptsTellNames};

use rs_caps::laws::answered::paths_are_answered;
use rs_disk::Disk;
use rs_recovery::laws::{held_names_are_lawful, runs_go_on, runs_recover};
use rs_recovery::walking::commands_make_walks;
use rs_store::laws::{answers_leave_prefixes, held_sources_rest};

/// An input is cut into lines in one way.
pub fn one_cut()
    ensures { (input : List ℕ) (raws others : List (List ℕ)) (rest tail : List ℕ)
        → Splits input raws rest → Splits input others tail → (raws ≡ others) × (rest ≡ tail) }
{}

/// Its lines make statements in one way.
pub fn one_script()
    ensures { (input : List ℕ) (statements others : List Statement)
        → IsScript input statements → IsScript input others → statements ≡ others }
{}

/// If no refusal is the machine's, generations are left and the device has followed the model, the outcomes of a script
/// are a function of its input, of its first state and of its first moment: every statement is answered as the model
/// answers it.
pub fn one_transcript<D: Disk>()
    ensures { ScriptsFollowTheModel D.state }
{}

/// The counted commands of a script, each at its moment, make the state that it leaves, unless the device failed and
/// the source is closed.
pub fn transcript_folds<D: Disk>()
    ensures told { ScriptsTellTheFold D.state }
    ensures held { ScriptsHoldTheFold D.state }
{}

/// A script is a run of its counted commands. So the laws of runs hold for scripts.
pub fn scripts_are_runs<D: Disk>()
    ensures { ScriptsAreRuns D.state }
{
    held_sources_rest::<D>();
    runs_go_on::<D>();
    runs_recover::<D>();
}

/// Whenever the disk stops within a script, it holds the state after the first counted commands. They include all that
/// were answered by then.
pub fn scripts_recover<D: Disk>()
    ensures { ScriptsRecover D.state }
{
    scripts_are_runs::<D>();
    runs_recover::<D>();
}

/// A script does the statements of its input, each of them once. Its source gets at most one command for each
/// statement, the one that the statement asks for, and the answer is the outcome. Every name that the script reports is
/// lawful, if its source held a state and the device has followed the model.
pub fn scripts_do_statements<D: Disk>()
    ensures done { ScriptsDoStatements D.state }
    ensures names { ScriptsTellNames D.state }
{
    held_sources_rest::<D>();
    held_names_are_lawful();
    runs_go_on::<D>();
}

/// A stop splits the answers of a script. Those that may have been written by then have exactly the replies to the
/// commands acknowledged by then, and the disk holds all these commands.
pub fn scripts_split<D: Disk>()
    ensures { ScriptsSplit D.state }
{
    answers_leave_prefixes();
}

/// A script makes a walk. A command is tried if the model decides the answer, refused if the machine does, and stopped
/// if the device failed in it. A `show` fetches the bytes that are answered at its path. All other statements are no
/// event. At the end every image of the disk represents the state after the walk.
pub fn scripts_make_walks<D: Disk>()
    ensures { ScriptsMakeWalks D.state }
{
    held_sources_rest::<D>();
    runs_go_on::<D>();
    commands_make_walks::<D>();
    paths_are_answered();
}
