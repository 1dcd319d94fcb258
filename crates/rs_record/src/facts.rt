//! The facts of a body.

ghost use Rattle.std.specs.Prelude.{◌≡◌, IfOk};

use crate::MediaType;
use rs_fixity::Digests;
use std::alloc::{AllocError, Global};

/// The facts of a body, which a Change List and a Resource List state (Z39.99, the attributes `type`, `length` and
/// `hash`).
#[derive(Debug, Drop)]
pub struct Facts {
    /// Its media type.
    pub kind: MediaType,
    /// Its length in bytes.
    pub length: u32,
    /// Its MD5 and its SHA-256.
    pub digests: Digests,
}

impl Facts {
    /// Returns a copy of the facts.
    ///
    /// # Errors
    ///
    /// An error if the memory for the copy was refused.
    pub fn copy(&self, alloc: Global) -> Result<Facts, AllocError>
        ensures { IfOk result (λ facts. facts ≡ self.now) }
    {
        Ok(Facts {
            kind: self.kind.copy(alloc)?,
            length: self.length,
            digests: self.digests,
        })
    }
}
