//! A resource, and the place of its body.

ghost use Rattle.std.specs.Prelude.{◌≡◌, IfOk};

use crate::{MediaType, Name};
use rs_extent::Extent;
use rs_fixity::Digests;
use rs_time::Moment;
use std::alloc::{AllocError, Global};

/// A resource that is held: its name, the facts of its body, its moment, and the place of the body on the disk.
#[derive(Debug, Drop)]
pub struct Record {
    /// The name of the resource.
    pub name: Name,
    /// The media type of the body.
    pub kind: MediaType,
    /// The length of the body in bytes.
    pub length: u32,
    /// The MD5 and the SHA-256 of the body.
    pub digests: Digests,
    /// When the name was bound to this body.
    pub moment: Moment,
    /// The blocks of the disk in which the body lies.
    pub extent: Extent,
}

impl Record {
    /// Returns a copy of the record.
    ///
    /// # Errors
    ///
    /// An error if the memory for the copy was refused.
    pub fn copy(&self, alloc: Global) -> Result<Record, AllocError>
        ensures { IfOk result (λ copied. copied ≡ self.now) }
    {
        Ok(Record {
            name: self.name.copy(alloc)?,
            kind: self.kind.copy(alloc)?,
            length: self.length,
            digests: self.digests,
            moment: self.moment,
            extent: self.extent,
        })
    }
}
