//! One HTTP request to a source, and its response (RFC 9110 and RFC 9112, one request a connection).
#![tactic(auto)]

mod answer;
mod ask;
mod body;
mod checks;
mod exchange;
mod fields;
mod group;
mod head;
pub mod laws;
mod outcome;
mod plan;
mod request;
mod response;
mod serve;
mod status;
mod target;

pub use rs_items::{ItemFault, item_of};
pub use serve::{Served, serve_one};
pub use status::StatusCode;
