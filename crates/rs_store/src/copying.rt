//! Copying a source to another disk.

ghost use Rattle.std.specs.Prelude.{◌≡◌};
ghost use Rattle.rs_store.specs.Copied.{AnswersCopy};

use crate::Source;
use crate::source::rooted_by;
use rs_copy::{CopyFault, copy_source};
use rs_disk::Disk;
use thiserror::Error;

/// The reason why a source is not copied. `Closed` comes first, and then the faults of the copy in their order.
#[derive(Clone, Copy, Debug, PartialEq, Eq, Error)]
pub enum CopyRefusal {
    /// A device call of an earlier command failed. The source has to be opened again.
    #[error("the source is closed")]
    Closed,
    /// The copy was not made.
    #[error(transparent)]
    Fault(CopyFault),
}

impl<D: Disk> Source<D> {
    /// Copies the source to another disk, and replaces any content of that disk. The copy has the same state. This
    /// source stays unchanged, and its disk is only read.
    ///
    /// It copies bodies in pieces, so memory grows with the lists alone. The first three calls of the new disk close
    /// its old content. Once they succeeded, a stop at any moment leaves no source there, or the same state.
    ///
    /// # Errors
    ///
    /// All errors return the new disk.
    ///
    /// - [`CopyRefusal::Closed`], [`CopyFault::TooSmall`] and [`CopyFault::Full`], in this order, before a call of
    ///   either disk.
    /// - [`CopyFault::Device`] if a call of either disk failed, and [`CopyFault::Damaged`] if a body does not have its
    ///   recorded SHA-256, in the order in which the copy meets them. Both come only if the new disk has room.
    /// - [`CopyFault::NoMemory`] if memory runs out.
    pub fn copy_to<E: Disk>(&mut self, disk: E) -> Result<Source<E>, (E, CopyRefusal)>
        ensures { AnswersCopy D.state E.state self.old self.new disk result }
    {
        let mut disk = disk;
        if self.is_closed {
            return Err((disk, CopyRefusal::Closed));
        }
        let rooted = rooted_by(&self.disk, &self.slots, &self.contents);
        match copy_source(self.alloc, &mut self.disk, &rooted, &mut disk) {
            Ok(copied) => Ok(Source {
                disk,
                slots: copied.slots,
                contents: copied.contents,
                used: copied.used,
                is_closed: false,
                alloc: self.alloc,
            }),
            Err(fault) => Err((disk, CopyRefusal::Fault(fault))),
        }
    }
}
