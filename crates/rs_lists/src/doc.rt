//! The documents of a source.

/// A document that a source publishes.
///
/// A value names a document, whether it exists or not. A part exists only while its list is an index,
/// which it is past the item limit. A part of the Resource List exists only for the latest publication.
#[derive(Clone, Copy, Debug, PartialEq, Eq)]
pub enum Doc {
    /// The Source Description, which names the Capability List.
    Description,

    /// The Capability List, which names the heads of both lists.
    Capabilities,

    /// The Resource List, or the index of its parts.
    ResourceHead,

    /// A part of the Resource List.
    ResourcePart {
        /// The number of the publication.
        publication: u64,
        /// The part's number, from 0 on.
        part: u64,
    },

    /// The Change List, or the index of its parts.
    ChangeHead,

    /// A part of the Change List.
    ChangePart {
        /// The part's number. No other part ever gets it.
        part: u64,
    },
}
