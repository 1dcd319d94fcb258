//! The changes that a source keeps, in the order of their moments, in pages.
#![tactic(auto)]

mod history;
pub mod laws;
mod storing;

pub use history::History;
