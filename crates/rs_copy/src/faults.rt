//! The faults of a copy.

ghost use Rattle.std.specs.Prelude.{◌≡◌};

use rs_disk::Fault;
use rs_page::{Full, StoreFault};
use std::alloc::AllocError;
use thiserror::Error;

/// The cause of a failed copy. `TooSmall` comes first and `Full` second, both before a call of either disk. `Device`
/// and `Damaged` come as the copy meets them. `NoMemory` may come at any point.
#[derive(Clone, Copy, Debug, PartialEq, Eq, Error)]
pub enum CopyFault {
    /// The new disk has fewer than 16 blocks of 512 bytes.
    #[error("the disk has fewer than 8192 bytes")]
    TooSmall,
    /// The new disk has no run of free blocks for a body, a page or the directory.
    #[error("the disk is full")]
    Full,
    /// A call of either disk failed.
    #[error("the device failed")]
    Device,
    /// A body does not have its recorded SHA-256.
    #[error("a body is damaged")]
    Damaged,
    /// A growth of memory was refused.
    #[error("out of memory")]
    NoMemory,
}

impl From<Fault> for CopyFault {
    ghost use Rattle.rs_copy.specs.declared.faults.CopyFault.{CopyFault};

    ghost from_gives = { λ _ fault. fault ≡ CopyFault.Device };

    fn from(_: Fault) -> CopyFault {
        CopyFault::Device
    }
}

impl From<Full> for CopyFault {
    ghost use Rattle.rs_copy.specs.declared.faults.CopyFault.{CopyFault};

    ghost from_gives = { λ _ fault. fault ≡ CopyFault.Full };

    fn from(_: Full) -> CopyFault {
        CopyFault::Full
    }
}

impl From<StoreFault> for CopyFault {
    ghost use Rattle.rs_copy.specs.Copying.{copy_fault_of};

    ghost from_gives = { λ of fault. fault ≡ copy_fault_of of };

    fn from(fault: StoreFault) -> CopyFault {
        match fault {
            StoreFault::Device => CopyFault::Device,
            StoreFault::NoMemory => CopyFault::NoMemory,
        }
    }
}

impl From<AllocError> for CopyFault {
    ghost use Rattle.rs_copy.specs.declared.faults.CopyFault.{CopyFault};

    ghost from_gives = { λ _ fault. fault ≡ CopyFault.NoMemory };

    fn from(_: AllocError) -> CopyFault {
        CopyFault::NoMemory
    }
}
