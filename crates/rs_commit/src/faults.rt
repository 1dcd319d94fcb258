//! The causes for which slots are not opened, or a root is not replaced.
use rs_disk::Fault;
use thiserror::Error;

/// The cause for which slots are not opened.
#[derive(Clone, Copy, Debug, PartialEq, Eq, Error)]
pub enum SlotFault {
    /// No slot is open, an open one has an unknown version, or both are open with equal
    /// generations.
    #[error("the disk holds no source")]
    NotASource,
    /// A device call failed.
    #[error("the device failed")]
    Device,
}

impl From<Fault> for SlotFault {
    ghost use Rattle.rs_commit.specs.declared.faults.SlotFault.TheVariants.{Device};
    ghost use Rattle.std.specs.Prelude.{◌≡◌};

    ghost from_gives = { λ _ fault. fault ≡ Device };

    fn from(_: Fault) -> Self {
        SlotFault::Device
    }
}

/// The cause for which a root is not replaced.
#[derive(Clone, Copy, Debug, PartialEq, Eq, Error)]
pub enum CommitFault {
    /// The generation of the root has its last value.
    #[error("no generation is left")]
    Exhausted,
    /// A device call failed.
    #[error("the device failed")]
    Device,
}

impl From<Fault> for CommitFault {
    ghost use Rattle.rs_commit.specs.declared.faults.CommitFault.TheVariants.{Device};
    ghost use Rattle.std.specs.Prelude.{◌≡◌};

    ghost from_gives = { λ _ fault. fault ≡ Device };

    fn from(_: Fault) -> Self {
        CommitFault::Device
    }
}
