//! The data of a source apart from its lists.

use crate::Limit;
use rs_record::Base;
use rs_time::Moment;

/// The data of a source apart from its lists: how it was formatted, when its last command came, and which publication
/// is the latest.
#[derive(Debug, Drop)]
pub struct Header {
    /// The prefix of every URI of the source.
    pub base: Base,
    /// The item limit: the greatest number of items in one document, 2 to 4,000.
    pub limit: Limit,
    /// The moment of formatting.
    pub start: Moment,
    /// The moment of the last accepted command, or of formatting.
    pub last: Moment,
    /// The number of the latest publication, 0 at first.
    pub number: u64,
    /// The moment of the latest publication, or of formatting.
    pub at: Moment,
    /// The number of the first kept part of the Change List, which is the number of dropped parts.
    pub first: u64,
    /// The moment at which the kept history begins: the moment of the last dropped change, or of
    /// formatting.
    pub begin: Moment,
}
