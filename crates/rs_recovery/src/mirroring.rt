//! The law of a destination that asks the sources of several sessions.

ghost use Rattle.rs_recovery.specs.Mirrored.{SessionsAreMirrored};

use crate::laws::sessions_stand;
use rs_caps::laws::destination::destination_mirrors;
use rs_model::walks_are_catalogued;

/// Whatever the stops between sessions, commands of each session stand. A destination asks for the Resource List, then
/// for the Change List, and for each part that their heads name; each request may come in another session. What it
/// gathers and mirrors is what the source held after the first of the commands that stand. These are at least the
/// commands of the source that the destination asked for the Change List's head, and at most those of the source at the
/// last request. If a group comes next there, the mirror may have the group's first changes too.
///
/// The source was formatted, or is a copy of one that was. Its sessions may be on disks of several types.
pub fn sessions_are_mirrored()
    ensures { SessionsAreMirrored }
{
    destination_mirrors();
    walks_are_catalogued();
    sessions_stand();
}
