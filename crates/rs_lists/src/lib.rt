//! The Resource List and the Change List of a ResourceSync source, their indexes and their parts,
//! as exact texts written from any view of the source.
#![tactic(auto)]

mod change_list;
mod doc;
mod document;
mod escape;
mod frame;
mod laws;
mod listing;
mod meter;
mod piece;
mod resource_list;
mod sink;
mod view;
mod write;

pub use doc::Doc;
pub use document::ListDocument;
pub use escape::write_escaped;
pub use laws::{documents_are_small, entries_are_small, parts_are_chunks, plain_texts_stay};
pub use meter::pieces_length;
pub use piece::{Piece, put_pieces};
pub use view::{View, change_parts, resource_parts};
pub use write::{ListError, list_length, write_list};
