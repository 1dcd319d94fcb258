//! Moments: whole milliseconds of UTC from 1970 to the end of the year 9999, and their text in the form of
//! W3C Datetime.
//!
//! No function here takes memory.
#![tactic(auto)]

mod calendar;
pub mod laws;
mod moment;

pub use moment::Moment;
