//! Why a source refuses.

ghost use Rattle.std.specs.Prelude.{◌≡◌};

use rs_model::Refusal as Refused;
use std::alloc::AllocError;
use thiserror::Error;

/// The reason why a source refuses. Of several causes it answers the first in this order, but `NoMemory` may come at
/// any point.
#[derive(Clone, Copy, Debug, PartialEq, Eq, Error)]
pub enum Refusal {
    /// A device call of an earlier command failed. The source has to be opened again.
    #[error("the source is closed")]
    Closed,
    /// A group of no items, or of more than 16.
    #[error("a group has 1 to 16 items")]
    BadGroup,
    /// A put of a body of more than 16,777,216 bytes.
    #[error("the body is longer than 16777216 bytes")]
    TooLong,
    /// The resource is not held.
    #[error("the resource is not held")]
    NotHeld,
    /// A put of a new name while 50,000 resources are held.
    #[error("50000 resources are held")]
    TooManyResources,
    /// A put or a delete while 50,000 changes are kept.
    #[error("50000 changes are kept")]
    TooManyChanges,
    /// No moment, publication number, part number or generation is left.
    #[error("no moment, publication number, part number or generation is left")]
    Exhausted,
    /// The disk has no run of free blocks for a body, a page or the directory.
    #[error("the disk is full")]
    Full,
    /// The reader of a body failed.
    #[error("the body cannot be read")]
    ReadFault,
    /// The reader of a body ended early.
    #[error("the body is shorter than was said")]
    ShortBody,
    /// A device call failed.
    #[error("the device failed")]
    Device,
    /// A body does not have its recorded SHA-256.
    #[error("the body is damaged")]
    Damaged,
    /// An allocation failed.
    #[error("out of memory")]
    NoMemory,
}

impl Refusal {
    ghost use Rattle.rs_store.specs.Refusals.{refusal_word};

    /// Returns the word for a refusal in a script and over HTTP: the name of its variant.
    pub fn word(self) -> &'static str
        ensures { result.now ≡ refusal_word self }
    {
        match self {
            Refusal::Closed => "Closed",
            Refusal::BadGroup => "BadGroup",
            Refusal::TooLong => "TooLong",
            Refusal::NotHeld => "NotHeld",
            Refusal::TooManyResources => "TooManyResources",
            Refusal::TooManyChanges => "TooManyChanges",
            Refusal::Exhausted => "Exhausted",
            Refusal::Full => "Full",
            Refusal::ReadFault => "ReadFault",
            Refusal::ShortBody => "ShortBody",
            Refusal::Device => "Device",
            Refusal::Damaged => "Damaged",
            Refusal::NoMemory => "NoMemory",
        }
    }
}

impl From<Refused> for Refusal {
    ghost use Rattle.rs_store.specs.Refusals.{named_as};

    ghost from_gives = { λ refused refusal. refusal ≡ named_as refused };

    fn from(refused: Refused) -> Refusal {
        match refused {
            Refused::BadGroup => Refusal::BadGroup,
            Refused::TooLong => Refusal::TooLong,
            Refused::NotHeld => Refusal::NotHeld,
            Refused::TooManyResources => Refusal::TooManyResources,
            Refused::TooManyChanges => Refusal::TooManyChanges,
            Refused::Exhausted => Refusal::Exhausted,
        }
    }
}

impl From<AllocError> for Refusal {
    ghost use Rattle.rs_store.specs.declared.refusal.Refusal.{Refusal};

    ghost from_gives = { λ _ refusal. refusal ≡ Refusal.NoMemory };

    fn from(_: AllocError) -> Refusal {
        Refusal::NoMemory
    }
}
