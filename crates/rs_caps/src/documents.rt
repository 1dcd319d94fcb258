//! The documents of a source: their paths, their texts, and the answer at a path.

pub mod answering;
pub mod document;
pub mod path_reading;
pub mod path_writing;
pub mod state_view;
