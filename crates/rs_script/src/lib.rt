//! The script engine of a ResourceSync source (ANSI/NISO Z39.99-2017).
//!
//! A script is a text of lines. Every statement, a line by itself or a group with its lines, is a request to a source
//! and gets one answer on the output.
#![tactic(auto)]

mod answer;
mod bytes;
mod engine;
mod execute;
mod group;
pub mod laws;
mod line;
mod memory;
mod pending;
mod refusal;
mod request;
mod show;
mod statement;

pub use engine::script;
pub use memory::script_bytes;
pub use refusal::Refusal;
