//! A source on a disk: after a crash at any moment every command is whole or absent.
//!
//! A [`Source`] keeps its resources, their changes and its latest publication on a disk. [`Source::format`] makes one
//! and [`Source::open`] opens one. [`Source::put`], [`Source::put_from`], [`Source::delete`], [`Source::publish`] and
//! [`Source::group`] do one step of the model, or refuse it. [`Source::run`] does many steps, and returns their answers
//! with the disk's counts of calls. [`Source::copy_to`] copies the source to another disk. The other methods show its
//! content. [`read_into`] reads a body into memory.
#![tactic(auto)]

mod commands;
mod copying;
mod deciding;
mod formatting;
mod grouping;
pub mod laws;
mod opening;
mod reading;
mod receiving;
mod refusal;
mod running;
mod source;
mod verifying;
mod view;
mod writing;

pub use copying::CopyRefusal;
pub use formatting::FormatFault;
pub use opening::OpenFault;
pub use reading::Status;
pub use receiving::read_into;
pub use refusal::Refusal;
pub use rs_copy::CopyFault;
pub use running::Ack;
pub use source::Source;
pub use view::SourceView;
