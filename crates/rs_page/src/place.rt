//! The place of a page.

use rs_extent::Extent;

/// The blocks of a page on the disk, its length and its SHA-256.
#[derive(Clone, Copy, Debug, PartialEq, Eq, PartialOrd, Ord)]
pub struct PageRef {
    /// The blocks that it has.
    pub extent: Extent,
    /// Its length in bytes, from the front of its first block on.
    pub length: u32,
    /// The SHA-256 of these bytes.
    pub sha256: [u8; 32],
}

/// The place of a page of a list.
#[derive(Clone, Copy, Debug, PartialEq, Eq)]
pub enum Place {
    /// It was made or changed, and has no blocks yet.
    Touched,
    /// It was given these blocks, and is not written yet.
    Placed(Extent),
    /// It is on the disk.
    Stored(PageRef),
}
