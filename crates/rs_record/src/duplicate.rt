//! Copies that take memory.

ghost use Rattle.std.specs.Prelude.{◌≡◌, IfOk};

use crate::{Change, Facts, Name, Record};
use std::alloc::{AllocError, Global};

/// A value that takes memory to copy.
pub trait Duplicate: Drop {
    /// Returns a copy of the value.
    ///
    /// # Errors
    ///
    /// An error if the memory for the copy was refused.
    fn duplicate(&self, alloc: Global) -> Result<Self, AllocError>
        ensures { IfOk result (λ copied. copied ≡ self.now) };
}

impl Duplicate for Name {
    fn duplicate(&self, alloc: Global) -> Result<Name, AllocError> {
        self.copy(alloc)
    }
}

impl Duplicate for Facts {
    fn duplicate(&self, alloc: Global) -> Result<Facts, AllocError> {
        self.copy(alloc)
    }
}

impl Duplicate for Record {
    fn duplicate(&self, alloc: Global) -> Result<Record, AllocError> {
        self.copy(alloc)
    }
}

impl Duplicate for Change {
    fn duplicate(&self, alloc: Global) -> Result<Change, AllocError> {
        self.copy(alloc)
    }
}

impl<A: Duplicate, B: Duplicate> Duplicate for (A, B) {
    fn duplicate(&self, alloc: Global) -> Result<(A, B), AllocError> {
        Ok((self.0.duplicate(alloc)?, self.1.duplicate(alloc)?))
    }
}

/// Returns copies of the values, in their order.
///
/// # Errors
///
/// An error if memory for the list or for one of the copies was refused.
pub fn duplicate_all<T: Duplicate>(alloc: Global, items: &[T]) -> Result<Vec<T>, AllocError>
    ensures { IfOk result (λ copied. copied.items ≡ items.now) }
{
    let mut copied = Vec::with_capacity(alloc, items.len())?;
    for item in items {
        copied.push(item.duplicate(alloc)?)?;
    }
    Ok(copied)
}
