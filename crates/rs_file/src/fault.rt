//! The reasons why a file was not opened or created.
use thiserror::Error;

/// The reason why a file was not opened or created.
#[derive(Clone, Copy, Debug, PartialEq, Eq, Error)]
pub enum FileFault {
    /// The name is already in use.
    #[error("Exists")]
    Exists,
    /// The system failed, the name is not that of a regular file, or the file is locked.
    #[error("Device")]
    Device,
}
