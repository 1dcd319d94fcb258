//! The answers of a [`Watched`](crate::Watched) reader or writer whose call failed.

ghost use Rattle.std.specs.Prelude.{◌≡◌};

use thiserror::Error;

/// The end of a stream that failed, the reader or the writer. The callers document the state after the failure.
#[derive(Clone, Copy, Debug, PartialEq, Eq, Error)]
pub enum StreamFault {
    /// The reader failed.
    #[error("the input cannot be read")]
    Read,
    /// The writer failed.
    #[error("the output cannot be written")]
    Write,
}

impl From<ReadFault> for StreamFault {
    ghost use Rattle.rs_io.specs.declared.fault.StreamFault.TheVariants.{Read};

    ghost from_gives = { λ _ made. made ≡ Read };

    fn from(_: ReadFault) -> StreamFault {
        StreamFault::Read
    }
}

impl From<WriteFault> for StreamFault {
    ghost use Rattle.rs_io.specs.declared.fault.StreamFault.TheVariants.{Write};

    ghost from_gives = { λ _ made. made ≡ Write };

    fn from(_: WriteFault) -> StreamFault {
        StreamFault::Write
    }
}

/// The reader failed: a read answered an error. The error of the operating system is dropped.
#[derive(Clone, Copy, Debug, PartialEq, Eq, Error)]
#[error("the reader failed")]
pub struct ReadFault;

/// The writer failed: a write or a flush answered an error, or a write took no byte. The error of the
/// operating system is dropped.
#[derive(Clone, Copy, Debug, PartialEq, Eq, Error)]
#[error("the writer failed")]
pub struct WriteFault;
