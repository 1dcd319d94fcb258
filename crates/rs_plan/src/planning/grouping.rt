//! Planning a group: its bodies, and the lists after its items in turn.

ghost use Rattle.std.specs.Prelude.{◌≡◌, ◌≤◌, ◌+◌, List, Bool, [], ◌∷◌, length, drop, vec_len, vec_capacity, IfOk, IsErrOf, OnOk, OnErr, option_map};
ghost use Rattle.std.specs.List.{AllByRecursion, cons_option};
ghost use Rattle.std.specs.Option.{option_copied};
ghost use Rattle.rs_body.specs.Blocks.{blocks_of};
ghost use Rattle.rs_extent.specs.Extents.{AreTaken};
ghost use Rattle.rs_image.specs.Rooted.{AreUsed};
ghost use Rattle.rs_image.specs.Whole.{AreMoments};
ghost use Rattle.rs_model.specs.declared.command.Command.TheVariants.{Group};
ghost use Rattle.rs_plan.specs.declared.planning.PlanFault.{PlanFault};
ghost use Rattle.rs_plan.specs.Allowed.{MayGroup, MayDoItem, IsShort};
ghost use Rattle.rs_plan.specs.Freed.{freed_page, freed_history_page, extent_of_body};
ghost use Rattle.rs_plan.specs.Plans.{IsPlanned, IsFullFor};
ghost use Rattle.rs_plan.specs.Room.{HasNoRoom, TakesEach, is_named_in, bodies_kept, bodies_needed};
ghost use Rattle.rs_plan.specs.Turned.{MayDoEach, is_written, extent_for, extents_left, lists_after_item, lists_after_items, of_each_item};

use super::freeing::Freed;
use super::lists::{lists_after_delete, lists_after_put, lists_copied};
use super::placing::{place_lists, take_lowest};
use super::{PlanFault, page_rule_is_kept, types_are_kept};
use crate::plan::Plan;
use rs_extent::{Extent, Used};
use rs_fixity::digests_of;
use rs_image::{Contents, Rooted};
use rs_model::{Item, Reply};
use rs_page::Full;
use rs_record::Name;
use rs_time::Moment;
use std::alloc::{AllocError, Global};

/// Plans to bind and unbind the names of these items in their order, in one step: the first at this
/// moment, every later one a millisecond after the one before it. A source accepts the command. A
/// body that a later item replaces or deletes gets no blocks. `used` has the blocks in use, and
/// does not change.
///
/// # Errors
///
/// - [`PlanFault::Full`] where a body, a page or the directory has no run of free blocks.
/// - [`PlanFault::NoMemory`] where memory is refused.
pub fn plan_group(
    alloc: Global,
    used: &mut Used,
    old: &Rooted<'_>,
    items: &[Item],
    moment: Moment,
) -> Result<Plan, PlanFault>
    requires used { AreUsed old.now used.old }
    requires may { MayGroup old.now.contents items.now moment }
    ensures same { used.new ≡ used.old }
    ensures planned { IfOk result (IsPlanned old.now (Group items.now) moment) }
    ensures full { IsErrOf result PlanFault.Full → IsFullFor old.now (Group items.now) moment }
{
    page_rule_is_kept();
    let contents = old.contents();
    types_are_kept(contents, moment);
    let bodies = find_bodies(alloc, used, items)?;
    let (lists, freed) = turn_items(alloc, contents, items, moment, &bodies)?;
    let freed = freed.with_directory(alloc, old.root().directory)?;
    let reply = Reply::Grouped(items.len() as u8, moment);
    place_lists(alloc, used, bodies, lists, reply, freed)
}

/// Finds blocks for every body that is written: the lowest run of free blocks of its size, after
/// the bodies before it have theirs. `used` does not change.
fn find_bodies(alloc: Global, used: &mut Used, items: &[Item]) -> Result<Vec<Extent>, PlanFault>
    requires short { AllByRecursion IsShort items.now }
    ensures same { used.new ≡ used.old }
    ensures found { IfOk result (λ bodies. (after : List Bool)
        × TakesEach used.old (bodies_needed (bodies_kept items.now)) bodies.items after) }
    ensures full { IsErrOf result PlanFault.Full
        → HasNoRoom used.old (bodies_needed (bodies_kept items.now)) }
{
    let mut bodies = Vec::with_capacity(alloc, items.len())?;
    let taken = take_bodies(used, items, &mut bodies);
    used.give_each(&bodies);
    taken?;
    Ok(bodies)
}

/// Takes blocks for every body that is written, and adds them to the list. Where a body has no run,
/// the blocks taken before stay in the list.
fn take_bodies(used: &mut Used, items: &[Item], bodies: &mut Vec<Extent>) -> Result<(), Full>
    requires short { AllByRecursion IsShort items.now }
    requires empty { bodies.old.items ≡ [] }
    requires room { vec_len bodies.old + length items.now ≤ vec_capacity bodies.old }
    ensures taken { AreTaken used.old used.new bodies.new.items }
    ensures each { OnOk result (TakesEach used.old (bodies_needed (bodies_kept items.now))
        bodies.new.items used.new) }
    ensures full { OnErr result (HasNoRoom used.old (bodies_needed (bodies_kept items.now))) }
{
    let mut rest = items;
    while let Some((item, later)) = rest.split_first() {
        if let Some(length) = written_length(item, later) {
            let Some(body) = take_lowest(used, length) else {
                return Err(Full);
            };
            bodies.push(body).unwrap();
        }
        rest = later;
    }
    Ok(())
}

/// Returns the length of an item's body, where it is written: no later item has its name.
fn written_length(item: &Item, later: &[Item]) -> Option<u32>
    requires { IsShort item.now }
    ensures { bodies_needed (bodies_kept (item.now ∷ later.now))
        ≡ cons_option (option_map blocks_of result) (bodies_needed (bodies_kept later.now)) }
{
    match item {
        Item::Put { name, bytes, .. } if !is_named_in(name, later) => {
            Some(bytes.bytes().len() as u32)
        }
        _ => None,
    }
}

/// Returns the body of the first of these items, if it has one and no later item replaces or
/// deletes it. A group writes no other bodies.
pub fn body_kept(items: &[Item]) -> Option<&[u8]>
    ensures { bodies_kept items.now
        ≡ cons_option (option_copied result) (bodies_kept (drop 1 items.now)) }
{
    match items.split_first() {
        Some((Item::Put { name, bytes, .. }, later)) if !is_named_in(name, later) => {
            Some(bytes.bytes())
        }
        _ => None,
    }
}

/// Returns whether one of these items has this name.
fn is_named_in(name: &Name, items: &[Item]) -> bool
    ensures { result ≡ is_named_in name.now items.now }
{
    items.iter().any(|item| name.bytes() == item.name().bytes())
}

/// Returns the lists after these items in turn, the first of them at this moment, with the written
/// bodies in these blocks; and the blocks, other than the directory's, that the items free.
fn turn_items(
    alloc: Global,
    old: &Contents,
    items: &[Item],
    moment: Moment,
    bodies: &[Extent],
) -> Result<(Contents, Freed), AllocError>
    requires may { MayDoEach old.now items.now moment bodies.now }
    ensures lists { IfOk result (λ turned. turned.0
        ≡ lists_after_items old.now items.now moment bodies.now) }
    ensures pages { IfOk result (λ turned. turned.1.pages.items
        ≡ of_each_item freed_page old.now items.now moment bodies.now) }
    ensures history { IfOk result (λ turned. turned.1.history_pages.items
        ≡ of_each_item freed_history_page old.now items.now moment bodies.now) }
    ensures bodies { IfOk result (λ turned. turned.1.bodies.items
        ≡ of_each_item extent_of_body old.now items.now moment bodies.now) }
{
    let mut lists = lists_copied(alloc, old)?;
    let mut freed = Freed::new(alloc);
    let mut ms = moment.ms();
    let mut left = bodies;
    let mut rest = items;
    while let Some((item, later)) = rest.split_first() {
        let (body, others) = body_for(item, later, left);
        freed.add(&lists, item.name())?;
        lists = lists_after_item(alloc, &lists, item, Moment::new(ms).unwrap(), body)?;
        ms += 1;
        left = others;
        rest = later;
    }
    Ok((lists, freed))
}

/// Returns the blocks of an item's body, and the blocks left for the later items. A body has no
/// blocks where a later item has its name.
fn body_for<'a>(item: &Item, later: &[Item], left: &'a [Extent]) -> (Extent, &'a [Extent])
    ensures body { result.0 ≡ extent_for item.now later.now left.now }
    ensures others { result.1.now ≡ extents_left item.now later.now left.now }
{
    if !is_written(item, later) {
        return (NO_BODY, left);
    }
    match left.split_first() {
        Some((first, others)) => (*first, others),
        None => (NO_BODY, left),
    }
}

/// Returns whether the body of an item is written: no later item replaces or deletes it.
fn is_written(item: &Item, later: &[Item]) -> bool
    ensures { result ≡ is_written item.now later.now }
{
    match item {
        Item::Put { name, .. } => !is_named_in(name, later),
        Item::Delete { .. } => false,
    }
}

/// Returns the lists after one item at its moment, with its body in this extent.
fn lists_after_item(
    alloc: Global,
    old: &Contents,
    item: &Item,
    moment: Moment,
    body: Extent,
) -> Result<Contents, AllocError>
    requires moments { AreMoments old.now.header old.now }
    requires may { MayDoItem old.now item.now moment }
    ensures { IfOk result (λ lists. lists ≡ lists_after_item old.now item.now moment body) }
{
    match item {
        Item::Put { name, kind, bytes } => {
            let bytes = bytes.bytes();
            let digests = digests_of(bytes);
            let length = bytes.len() as u32;
            lists_after_put(alloc, old, name, kind, length, digests, body, moment)
        }
        Item::Delete { name } => lists_after_delete(alloc, old, name, moment),
    }
}

/// The blocks of a body that is not written.
const NO_BODY: Extent = Extent {
    first: 0,
    blocks: 0,
};
