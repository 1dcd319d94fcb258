//! The limits of the content of a source.

/// The greatest number of bytes of a body: 16 MiB.
pub const LONGEST_BODY: u32 = 16_777_216;

/// The most resources that a source holds, the most changes that it keeps, and the most items that a
/// page of them has.
pub const MOST_ITEMS: usize = 50_000;
