//! The bodies and entries of resources.

ghost use Rattle.std.specs.Prelude.{◌≡◌};

use rs_record::{Duplicate, Facts};
use rs_time::Moment;
use std::alloc::{AllocError, Global};
use std::marker::Model;

/// The bytes of a resource. Contracts see their list.
#[derive(Debug, Drop)]
pub struct Body {
    bytes: Vec<u8>,
}

impl Model for Body {
    ghost use Rattle.std.specs.Prelude.{ℕ, List};

    ghost Value = { List ℕ };

    ghost view = { λ b. b.bytes.items };
}

impl Body {
    /// Returns the body of these bytes, of any number.
    pub fn new(bytes: Vec<u8>) -> Body
        ensures { result ≡ bytes.items }
    {
        Self { bytes }
    }

    /// Returns its bytes.
    pub fn bytes(&self) -> &[u8]
        ensures { result.now ≡ self.now }
    {
        self.bytes.as_slice()
    }
}

impl Duplicate for Body {
    fn duplicate(&self, alloc: Global) -> Result<Body, AllocError> {
        let bytes = Vec::from_slice(alloc, self.bytes())?;
        Ok(Body { bytes })
    }
}

/// The description of a resource in lists: the facts of its body, and the moment since which they
/// hold.
#[derive(Debug, Drop)]
pub struct Entry {
    /// Its media type, length and digests.
    pub facts: Facts,
    /// The moment of the put.
    pub moment: Moment,
}

impl Duplicate for Entry {
    fn duplicate(&self, alloc: Global) -> Result<Entry, AllocError> {
        Ok(Entry {
            facts: self.facts.copy(alloc)?,
            moment: self.moment,
        })
    }
}

/// A resource that is held.
#[derive(Debug, Drop)]
pub struct Held {
    /// Its body.
    pub bytes: Body,
    /// Its description in lists.
    pub entry: Entry,
}

impl Duplicate for Held {
    fn duplicate(&self, alloc: Global) -> Result<Held, AllocError> {
        Ok(Held {
            bytes: self.bytes.duplicate(alloc)?,
            entry: self.entry.duplicate(alloc)?,
        })
    }
}
