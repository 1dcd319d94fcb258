//! One page of a list on the disk, for items of any type.
//!
//! A list of records or of changes is kept in pages. A page has its items, in their order, and a [`Place`]: it was
//! changed and has no blocks yet, it was given blocks, or it is on the disk at a [`PageRef`]. [`Page::place_in`] gives
//! it the lowest run of free blocks, [`Page::store`] writes it there, and [`Page::load`] reads it back or finds it
//! damaged. The contracts here and those of the lists above speak of one page and of lists of pages in the same words,
//! which are in `specs`; [`laws`] states the laws that follow from them.
#![tactic(auto)]

mod change_item;
mod fill;
mod format;
mod item;
mod kind;
pub mod laws;
mod page;
mod place;
mod reading;
mod record_item;
mod shared;

pub use fill::Fill;
pub use item::PageItem;
pub use kind::PageKind;
pub use page::load::fault_of_fields;
pub use page::store::StoreFault;
pub use page::{Full, Page};
pub use place::{PageRef, Place};
pub use rs_record::MOST_ITEMS;
