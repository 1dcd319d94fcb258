//! Faults of bytes that gave no value.

use thiserror::Error;

/// The fault of bytes that gave no value.
#[derive(Clone, Copy, Debug, PartialEq, Eq, Error)]
pub enum ValueFault {
    /// The bytes are no lawful value, or begin with no format of one.
    #[error("the bytes are no lawful value")]
    Malformed,
    /// The memory for the value was refused.
    #[error("out of memory")]
    NoMemory,
}
