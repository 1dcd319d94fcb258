//! Tests of the pages of a source, of the lists in them, of its directory and of whole images:
//! their answers where a device fails, and worked values that the program doesn't show.
//!
//! The tables `tests/rows/*.disks` and their sessions show on the built program which state a disk
//! holds, and which disks are damaged.
#![tactic(auto)]

#[cfg(test)]
mod directories;
#[cfg(test)]
mod dropping;
#[cfg(test)]
mod images;
#[cfg(test)]
mod lists;
#[cfg(test)]
mod pages;
#[cfg(test)]
mod paging;
#[cfg(test)]
mod parts;
#[cfg(test)]
mod values;
