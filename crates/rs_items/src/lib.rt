//! The items of scripts and groups: the put or delete that one line writes.
#![tactic(auto)]

mod fields;
mod item;

pub use fields::{after, split_field};
pub use item::{ItemFault, item_of};
