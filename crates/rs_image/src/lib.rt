//! The state that an image of a disk holds, and reading it.
#![tactic(auto)]

mod contents;
pub mod laws;
mod loading;
mod placed;
mod rooted;
mod used;
mod whole;

pub use contents::{Contents, Loaded};
pub use loading::load;
pub use rooted::Rooted;
pub use used::{unshared_pages, used_of};
