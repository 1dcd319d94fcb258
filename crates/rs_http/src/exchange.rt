//! The inputs of the answer to a request.

use crate::response::Framing;
use rs_time::Moment;
use std::alloc::Global;

/// The inputs of the answer to a request, apart from the source and the two ends.
#[derive(Clone, Copy)]
pub(crate) struct Exchange {
    /// The allocator.
    pub(crate) alloc: Global,
    /// The moment at which a command comes.
    pub(crate) moment: Moment,
    /// The common part of the responses.
    pub(crate) framing: Framing,
}
