//! Laws of histories, over their definitions alone.
//!
//! The functions here have no effect: their contracts are the laws, which the check proves.
ghost use Rattle.rs_changes.specs.Laws.{HistoryHeldOnce, HistoryStays, StoredHistoryIsHeld};

use rs_page::laws::{pages_hold_once, pages_stay, stored_pages_stand};
use rs_record::Change;

/// Pages hold at most one history.
pub fn history_is_held_once()
    ensures { HistoryHeldOnce }
{
    pages_hold_once::<Change>();
}

/// The history that pages hold depends on their blocks alone.
pub fn history_stays()
    ensures { HistoryStays }
{
    pages_stay::<Change>();
}

/// If all pages of a history are on the disk, the references to them hold this history: so
/// [`crate::History::load`] gives its changes, as far as the device and the memory allow.
pub fn stored_history_is_held()
    ensures { StoredHistoryIsHeld }
{
    stored_pages_stand::<Change>();
}
