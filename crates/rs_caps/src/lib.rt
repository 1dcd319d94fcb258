//! The documents of a source: their paths and exact texts, and the laws that the served documents give all that the
//! source holds.
#![tactic(auto)]

mod documents;
pub mod laws;

pub use documents::answering::answer;
pub use documents::document::{Document, document_length, write_document};
pub use documents::path_reading::doc_of;
pub use documents::path_writing::{path_of, write_path};
pub use documents::state_view::StateView;
