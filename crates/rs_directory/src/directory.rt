//! A directory in memory.

use crate::Header;
use rs_page::PageRef;

/// The directory of a source, to which its root points: the header, and an entry for every page of its lists, in the
/// order of the pages.
#[derive(Debug, Drop)]
pub struct Directory {
    /// The data of the source apart from its lists.
    pub header: Header,
    /// The pages of the records of the resources that the source holds.
    pub catalogue: Vec<PageRef>,
    /// The pages of the kept changes.
    pub changes: Vec<PageRef>,
    /// The pages of the records of the latest publication.
    pub published: Vec<PageRef>,
}
