//! The plan of a command: the lists after it, the blocks that its writes take, and the blocks that
//! it gives back.

ghost use Rattle.std.specs.Prelude.{◌≡◌, ℕ, List, length, IfOk, IsErrOf};
ghost use Rattle.rs_model.specs.declared.command.Command.TheVariants.{Put, Delete, Publish};
ghost use Rattle.rs_plan.specs.Allowed.{MayPut, MayDelete, MayPublish};
ghost use Rattle.rs_image.specs.Rooted.{AreUsed};
ghost use Rattle.rs_image.specs.StateOfImage.{AreLists};
ghost use Rattle.rs_time.specs.Moment.{IsMoment};
ghost use Rattle.rs_body.specs.Blocks.{blocks_of};
ghost use Rattle.rs_plan.specs.Room.{HasNoRun};
ghost use Rattle.rs_plan.specs.Plans.{IsPlanned, IsFullFor};
ghost use Rattle.rs_plan.specs.Drafts.{IsDraft, IsPageRuleKept};

mod dropping;
mod freeing;
mod grouping;
mod lists;
mod placing;

use crate::plan::Plan;
pub use dropping::dropped_parts;
use freeing::{freed_by_change, freed_by_publication};
pub use grouping::{body_kept, plan_group};
use lists::{lists_after_delete, lists_after_publish, lists_after_put, reply_told};
use placing::{find_lowest, place_lists};
use rs_extent::Used;
use rs_fixity::{Digests, digests_of};
use rs_image::{Contents, Rooted};
use rs_model::Reply;
use rs_page::Full;
use rs_pages::laws::{
    first_items_are_dropped_as_one, items_are_filled_as_one, last_items_are_filled,
    one_page_is_touched, pages_are_one_list, pages_are_one_map,
};
use rs_record::{Change, MOST_ITEMS, MediaType, Name, Record};
use rs_time::Moment;
use std::alloc::{AllocError, Global};
use thiserror::Error;

/// The reason why a command has no plan.
#[derive(Clone, Copy, Debug, PartialEq, Eq, Error)]
pub enum PlanFault {
    /// A part that the command writes has no run of free blocks.
    #[error("the disk is full")]
    Full,
    /// The allocator refused memory.
    #[error("out of memory")]
    NoMemory,
}

impl From<Full> for PlanFault {
    ghost use Rattle.rs_plan.specs.declared.planning.PlanFault.{PlanFault};

    ghost from_gives = { λ _ fault. fault ≡ PlanFault.Full };

    fn from(_: Full) -> PlanFault {
        PlanFault::Full
    }
}

impl From<AllocError> for PlanFault {
    ghost use Rattle.rs_plan.specs.declared.planning.PlanFault.{PlanFault};

    ghost from_gives = { λ _ fault. fault ≡ PlanFault.NoMemory };

    fn from(_: AllocError) -> PlanFault {
        PlanFault::NoMemory
    }
}

/// Plans to bind a name, at this moment, to a body of this media type and of `body_length` bytes,
/// whose digests are not known yet: [`Plan::fill`] fills them in. A source accepts the command.
/// `used` has the blocks in use, and does not change.
///
/// # Errors
///
/// - [`PlanFault::Full`] where the body, a page or the directory has no run of free blocks. Where
///   the body has none, it is always this fault.
/// - [`PlanFault::NoMemory`] where memory is refused.
pub fn draft_put(
    alloc: Global,
    used: &mut Used,
    old: &Rooted<'_>,
    name: &Name,
    kind: &MediaType,
    body_length: u32,
    moment: Moment,
) -> Result<Plan, PlanFault>
    requires used { AreUsed old.now used.old }
    requires may { MayPut old.now.contents name.now body_length moment }
    ensures same { used.new ≡ used.old }
    ensures draft { IfOk result (IsDraft old.now name.now kind.now body_length moment) }
    ensures full { IsErrOf result PlanFault.Full → (bytes : List ℕ) → length bytes ≡ body_length
        → IsFullFor old.now (Put name.now kind.now bytes) moment }
    ensures no_body { HasNoRun used.old (blocks_of body_length) → IsErrOf result PlanFault.Full }
{
    page_rule_is_kept();
    let contents = old.contents();
    types_are_kept(contents, moment);
    let Some(body) = find_lowest(used, body_length) else {
        return Err(PlanFault::Full);
    };
    let bodies = Vec::from_slice(alloc, &[body])?;
    let freed = freed_by_change(alloc, old, name)?;
    let lists = lists_after_put(
        alloc,
        contents,
        name,
        kind,
        body_length,
        UNKNOWN,
        body,
        moment,
    )?;
    let reply = reply_told(&lists.history);
    place_lists(alloc, used, bodies, lists, reply, freed)
}

/// A placeholder for digests that are not known yet.
const UNKNOWN: Digests = Digests {
    md5: [0; 16],
    sha256: [0; 32],
};

/// Plans to bind a name, at this moment, to these bytes of this media type. A source accepts the
/// command. `used` has the blocks in use, and does not change.
///
/// # Errors
///
/// - [`PlanFault::Full`] where the body, a page or the directory has no run of free blocks. Where
///   the body has none, it is always this fault.
/// - [`PlanFault::NoMemory`] where memory is refused.
pub fn plan_put(
    alloc: Global,
    used: &mut Used,
    old: &Rooted<'_>,
    name: &Name,
    kind: &MediaType,
    bytes: &[u8],
    moment: Moment,
) -> Result<Plan, PlanFault>
    requires used { AreUsed old.now used.old }
    requires may { MayPut old.now.contents name.now (length bytes.now) moment }
    ensures same { used.new ≡ used.old }
    ensures planned { IfOk result (IsPlanned old.now (Put name.now kind.now bytes.now) moment) }
    ensures full { IsErrOf result PlanFault.Full
        → IsFullFor old.now (Put name.now kind.now bytes.now) moment }
    ensures no_body { HasNoRun used.old (blocks_of (length bytes.now))
        → IsErrOf result PlanFault.Full }
{
    let body_length = bytes.len() as u32;
    let mut plan = draft_put(alloc, used, old, name, kind, body_length, moment)?;
    plan.fill(name, digests_of(bytes));
    Ok(plan)
}

/// Plans to unbind a held name, at this moment. A source accepts the command. `used` has the blocks
/// in use, and does not change.
///
/// # Errors
///
/// - [`PlanFault::Full`] where a page or the directory has no run of free blocks.
/// - [`PlanFault::NoMemory`] where memory is refused.
pub fn plan_delete(
    alloc: Global,
    used: &mut Used,
    old: &Rooted<'_>,
    name: &Name,
    moment: Moment,
) -> Result<Plan, PlanFault>
    requires used { AreUsed old.now used.old }
    requires may { MayDelete old.now.contents name.now moment }
    ensures same { used.new ≡ used.old }
    ensures planned { IfOk result (IsPlanned old.now (Delete name.now) moment) }
    ensures full { IsErrOf result PlanFault.Full → IsFullFor old.now (Delete name.now) moment }
{
    page_rule_is_kept();
    let contents = old.contents();
    types_are_kept(contents, moment);
    let freed = freed_by_change(alloc, old, name)?;
    let lists = lists_after_delete(alloc, contents, name, moment)?;
    let reply = Reply::Deleted(moment);
    place_lists(alloc, used, Vec::new(alloc), lists, reply, freed)
}

/// Plans to publish all held resources, at this moment, and to drop the parts of the changes that end
/// no later than the publication before. A source accepts the command. `used` has the blocks in use,
/// and does not change.
///
/// # Errors
///
/// - [`PlanFault::Full`] where a page or the directory has no run of free blocks.
/// - [`PlanFault::NoMemory`] where memory is refused.
pub fn plan_publish(
    alloc: Global,
    used: &mut Used,
    old: &Rooted<'_>,
    moment: Moment,
) -> Result<Plan, PlanFault>
    requires used { AreUsed old.now used.old }
    requires may { MayPublish old.now.contents moment }
    ensures same { used.new ≡ used.old }
    ensures planned { IfOk result (IsPlanned old.now Publish moment) }
    ensures full { IsErrOf result PlanFault.Full → IsFullFor old.now Publish moment }
{
    first_items_are_dropped_as_one::<Change>();
    let contents = old.contents();
    types_are_kept(contents, moment);
    let freed = freed_by_publication(alloc, old)?;
    let lists = lists_after_publish(alloc, contents, moment)?;
    let reply = Reply::Published(lists.header.number, moment);
    place_lists(alloc, used, Vec::new(alloc), lists, reply, freed)
}

/// Proves the facts that the page rule keeps in the lists of a draft and of a group.
fn page_rule_is_kept()
    ensures { IsPageRuleKept }
{
    pages_are_one_map::<Record>();
    pages_are_one_list::<Change>();
    one_page_is_touched::<Record>();
    items_are_filled_as_one::<Record>();
    last_items_are_filled::<Change>();
}

/// Proves the facts that the types of these lists and of this moment keep.
fn types_are_kept(contents: &Contents, moment: Moment)
    ensures lists { AreLists contents.now }
    ensures moment { IsMoment moment }
{
    prove!(contents.page_count() <= 3 * MOST_ITEMS);
    prove!(moment.ms() <= Moment::GREATEST);
}
