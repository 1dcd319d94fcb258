//! Finding blocks for the writes of a command.

ghost use Rattle.std.specs.Prelude.{◌≡◌, ◌≤◌, ◌+◌, List, ◌++◌, length, vec_len, vec_capacity, IfOk, OnErr, IsErrOf, MatchOption};
ghost use Rattle.rs_body.specs.Blocks.{blocks_of};
ghost use Rattle.rs_extent.specs.declared.Extent.{Extent};
ghost use Rattle.rs_extent.specs.Extents.{CanTake, AreTaken};
ghost use Rattle.rs_image.specs.StateOfImage.{AreLists};
ghost use Rattle.rs_plan.specs.declared.planning.PlanFault.{PlanFault};
ghost use Rattle.rs_plan.specs.Room.{Takes, IsFoundRun, HasNoRun, HasNoRoom, lists_needed};
ghost use Rattle.rs_plan.specs.PlacedFrom.{IsPlacedFrom, HasNoRoomFrom};
ghost use Rattle.rs_plan.specs.Placed.{AreUnplaced, HaveTheirPlaces, places_of};

use super::PlanFault;
use crate::plan::Plan;
use rs_body::blocks_for;
use rs_directory::directory_size;
use rs_extent::{Extent, Used};
use rs_image::Contents;
use rs_model::Reply;
use rs_page::Full;
use std::alloc::{AllocError, Global};

/// Returns the lowest run of free blocks for `length` bytes; no blocks for no bytes. Returns `None`
/// where the disk has no run of this length.
pub(crate) fn find_lowest(used: &Used, length: u32) -> Option<Extent>
    ensures { MatchOption result (HasNoRun used.now (blocks_of length))
        (IsFoundRun used.now (blocks_of length)) }
{
    let blocks = blocks_for(length);
    if blocks == 0 {
        return Some(Extent {
            first: 0,
            blocks: 0,
        });
    }
    used.find(blocks)
}

/// Plans the lists after a command whose bodies have their blocks already. The touched pages of the
/// catalogue, then those of the history, and then the directory get the lowest run of free blocks
/// of their size, one after another. The plan has this reply and frees these extents. `used` does
/// not change.
///
/// # Errors
///
/// - [`PlanFault::Full`] where a page or the directory has no run of free blocks.
/// - [`PlanFault::NoMemory`] where the memory for the list of the places is refused.
pub(crate) fn place_lists(
    alloc: Global,
    used: &mut Used,
    bodies: Vec<Extent>,
    mut lists: Contents,
    reply: Reply,
    freed: Vec<Extent>,
) -> Result<Plan, PlanFault>
    requires unplaced { AreUnplaced lists }
    requires are_free { CanTake used.old bodies.items }
    ensures same { used.new ≡ used.old }
    ensures placed { IfOk result (IsPlacedFrom used.old bodies.items lists reply freed.items) }
    ensures full { IsErrOf result PlanFault.Full → HasNoRoomFrom used.old bodies.items lists }
{
    let pages = lists.catalogue.as_pages().page_count() + lists.history.as_pages().page_count();
    let mut taken = with_room(alloc, &bodies, pages + 1)?;
    used.take_each(&bodies);
    let placed = take_places(used, &mut lists, &mut taken);
    used.give_each(&taken);
    let directory = placed?;
    Ok(Plan {
        contents: lists,
        bodies,
        directory,
        reply,
        taken,
        freed,
    })
}

/// Returns these extents, in a list with room for `more` others.
fn with_room(alloc: Global, extents: &[Extent], more: usize) -> Result<Vec<Extent>, AllocError>
    ensures items { IfOk result (λ found. found.items ≡ extents.now) }
    ensures room { IfOk result (λ found. vec_len found + more ≤ vec_capacity found) }
{
    let mut found = Vec::from_slice(alloc, extents)?;
    found.reserve(more)?;
    Ok(found)
}

/// Takes blocks for the touched pages and then for the directory, and adds them to the list of
/// taken blocks. Where a page or the directory has no run, the blocks taken before stay in the
/// list.
fn take_places(
    used: &mut Used,
    lists: &mut Contents,
    taken: &mut Vec<Extent>,
) -> Result<Extent, Full>
    requires unplaced { AreUnplaced lists.old }
    requires room { vec_len taken.old + length lists.old.catalogue
        + length lists.old.history.pages + 1 ≤ vec_capacity taken.old }
    ensures taken { (extents : List Extent) × (taken.new.items ≡ taken.old.items ++ extents)
        × AreTaken used.old used.new extents
        × IfOk result (λ directory. extents ≡ places_of lists.new directory) }
    ensures placed { IfOk result
        (λ directory. HaveTheirPlaces used.old lists.old lists.new directory used.new) }
    ensures full { OnErr result (HasNoRoom used.old (lists_needed lists.old)) }
    ensures lists { AreLists lists.old }
{
    let length = directory_size(&lists.header, lists.page_count());
    lists.catalogue.place_touched(used)?;
    lists.catalogue.as_pages().list_placed(taken);
    lists.history.place_touched(used)?;
    lists.history.as_pages().list_placed(taken);
    let Some(directory) = take_lowest(used, length) else {
        return Err(Full);
    };
    taken.push(directory).unwrap();
    Ok(directory)
}

/// Takes the lowest run of free blocks for `length` bytes; no blocks for no bytes. Where the disk
/// has no run of this length, it returns `None` and takes no blocks.
pub(crate) fn take_lowest(used: &mut Used, length: u32) -> Option<Extent>
    ensures found { MatchOption result (HasNoRun used.old (blocks_of length))
        (λ extent. Takes used.old (blocks_of length) extent used.new) }
    ensures none { MatchOption result (used.new ≡ used.old) (λ _. Unit {0}) }
{
    let extent = find_lowest(used, length)?;
    used.take(extent);
    Some(extent)
}
