//! The records of the held resources, in the ascending order of their names, in pages.
//!
//! Binding or unbinding a name in a [`Catalogue`] makes a new one, in which all pages except the
//! touched one are the same; the old catalogue stays. [`Catalogue::place_touched`] gives blocks to
//! a touched page, [`Catalogue::store_touched`] writes it, and [`Catalogue::load`] reads it back.
//! Loading answers Damaged if the references hold no catalogue. [`laws`] states the consequences of
//! the definitions alone. The page rule of `rs_pages` determines where a record goes, and how a
//! touched page is cut.
#![tactic(auto)]

mod catalogue;
pub mod laws;
mod storing;

pub use catalogue::Catalogue;
pub use rs_body::LoadFault;
pub use rs_page::{Full, PageRef, StoreFault};
