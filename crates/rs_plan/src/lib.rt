//! Plans of the writes of a command, with blocks for all of them.
//!
//! A [`Plan`] has the lists after a command, and blocks for every part that the command writes: the
//! bodies, the touched pages and the directory. [`plan_put`], [`plan_delete`], [`plan_publish`] and
//! [`plan_group`] make a plan from the lists in memory, without a call of the disk, or find that
//! the disk has no room.
#![tactic(auto)]

mod plan;
mod planning;

pub use plan::Plan;
pub use planning::{
    PlanFault, body_kept, draft_put, dropped_parts, plan_delete, plan_group, plan_publish, plan_put,
};
