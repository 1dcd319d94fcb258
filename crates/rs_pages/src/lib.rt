//! Lists in pages, of which only those that are touched change.
//!
//! [`Pages`] is a list that stays: [`Pages::with`], [`Pages::without`] and [`Pages::append`] make a
//! new one, in which all pages but the one that was touched are the same. Where an item goes, and
//! how a touched page is cut into pages of at most 64 items, is a function on lists of pages in
//! `specs/Rule.antt`, and the contracts say that the new list is exactly its value.
//! [`Pages::without_front`] makes one without the first items, by `specs/Dropped.antt`.
//! [`Pages::fill`] and [`Pages::fill_last`] change an item at its place, in a page that is not on
//! the disk. [`Pages::place_touched`] and [`Pages::store_touched`] bring the pages onto the disk,
//! and [`Pages::load`] reads them back, up to 50,000 items; [`Pages::pages`], [`Pages::entry_for`]
//! and [`Pages::open_entry`] return their entries. [`laws`] states the consequences of the rule.
#![tactic(auto)]

mod beside;
mod dropping;
mod entries;
mod filling;
pub mod laws;
mod loading;
mod making;
mod named;
mod pages;
mod storing;
mod within;

pub use named::Named;
pub use pages::Pages;
