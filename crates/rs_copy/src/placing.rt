//! Blocks for the bodies, the pages and the directory of a copy.

ghost use Rattle.std.specs.Prelude.{◌≡◌, ◌+◌, [], ◌∷◌, ◌++◌, length, IfOk, IfErr, OnOk, OnErr, IsErrOf};
ghost use Rattle.std.specs.List.{AllZip};
ghost use Rattle.rs_body.specs.Blocks.{blocks_of};
ghost use Rattle.rs_catalogue.specs.Catalogue.{records_of, AreHeld};
ghost use Rattle.rs_image.specs.Reach.{bodies_of};
ghost use Rattle.rs_plan.specs.Room.{HasNoRun, HasNoRoom, Takes, TakesEach};
ghost use Rattle.rs_copy.specs.declared.faults.CopyFault.{CopyFault};
ghost use Rattle.rs_copy.specs.Laying.{IsMoved, records_needed, copy_needed, ArePlacedInTurn};
ghost use Rattle.rs_copy.specs.Copying.{IsOfLaying, AreAllUnplaced};

use crate::CopyFault;
use rs_body::blocks_for;
use rs_catalogue::Catalogue;
use rs_directory::directory_size;
use rs_extent::{Extent, Used};
use rs_image::Contents;
use rs_page::Full;
use rs_record::Record;
use std::alloc::{AllocError, Global};

/// Returns the records of a catalogue with new extents. Every body takes the lowest run of free blocks of its size, in
/// the order of the names.
///
/// # Errors
///
/// - [`CopyFault::Full`] if a body has no such run.
/// - [`CopyFault::NoMemory`] if memory runs out.
pub(crate) fn place_bodies(
    alloc: Global,
    catalogue: &Catalogue,
    used: &mut Used,
) -> Result<Vec<Record>, CopyFault>
    ensures records { IfOk result
        (λ held. AllZip IsMoved (records_of catalogue.now) held.items) }
    ensures lawful { IfOk result (λ held. AreHeld held.items) }
    ensures found { IfOk result (λ held. TakesEach used.old
        (records_needed (records_of catalogue.now)) (bodies_of held.items) used.new) }
    ensures full { IsErrOf result CopyFault.Full
        → HasNoRoom used.old (records_needed (records_of catalogue.now)) }
    ensures others { IfErr result IsOfLaying }
{
    let mut held = Vec::new(alloc);
    for i in 0..catalogue.len() {
        add(&mut held, placed(alloc, catalogue.at(i), used)?)?;
    }
    Ok(held)
}

/// Appends a record.
fn add(records: &mut Vec<Record>, new: Record) -> Result<(), AllocError>
    ensures { OnOk result (records.new.items ≡ records.old.items ++ new ∷ []) }
{
    records.push(new)?;
    Ok(())
}

/// Returns the record with the lowest run of free blocks for its body.
fn placed(alloc: Global, old: &Record, used: &mut Used) -> Result<Record, CopyFault>
    ensures same { IfOk result (IsMoved old.now) }
    ensures found { IfOk result
        (λ new. Takes used.old (blocks_of old.now.length) new.extent used.new) }
    ensures full { IsErrOf result CopyFault.Full → HasNoRun used.old (blocks_of old.now.length) }
    ensures others { IfErr result IsOfLaying }
{
    let extent = take_lowest(used, old.length)?;
    let mut new = old.copy(alloc)?;
    new.extent = extent;
    Ok(new)
}

/// Places the touched pages of these lists, and then the directory. Every page and the directory take the lowest run of
/// free blocks of their size, in this order: catalogue, changes, publication, directory.
///
/// # Errors
///
/// [`Full`] if a page or the directory has no such run.
pub(crate) fn place_lists(used: &mut Used, lists: &mut Contents) -> Result<Extent, Full>
    requires { AreAllUnplaced lists.old }
    ensures placed { IfOk result
        (λ directory. ArePlacedInTurn used.old lists.old lists.new directory used.new) }
    ensures full { OnErr result (HasNoRoom used.old (copy_needed lists.old)) }
{
    let length = directory_size(&lists.header, lists.page_count());
    lists.catalogue.place_touched(used)?;
    lists.history.place_touched(used)?;
    lists.published.place_touched(used)?;
    take_lowest(used, length)
}

/// Takes the lowest run of free blocks for `length` bytes. No bytes take no blocks.
fn take_lowest(used: &mut Used, length: u32) -> Result<Extent, Full>
    ensures found { IfOk result (λ extent. Takes used.old (blocks_of length) extent used.new) }
    ensures full { OnErr result (HasNoRun used.old (blocks_of length)) }
{
    let blocks = blocks_for(length);
    let extent = if blocks == 0 {
        NOWHERE
    } else {
        used.find(blocks).ok_or(Full)?
    };
    used.take(extent);
    Ok(extent)
}

// The blocks of an empty body.
const NOWHERE: Extent = Extent {
    first: 0,
    blocks: 0,
};
