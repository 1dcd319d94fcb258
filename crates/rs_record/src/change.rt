//! Changes of a resource.

ghost use Rattle.std.specs.Prelude.{◌≡◌, IfOk, IsTrue};
ghost use Rattle.rs_record.specs.ChangeKind.{agree};

use crate::{Facts, Name};
use rs_time::Moment;
use std::alloc::{AllocError, Global};

/// The kind of a change: the values of the attribute `change` of Z39.99.
#[derive(Clone, Copy, Debug, PartialEq, Eq)]
pub enum What {
    /// The name was bound, and had not been.
    Created,
    /// The name was bound again, and its earlier body replaced.
    Updated,
    /// The name was unbound.
    Deleted,
}

/// A change of a resource: its kind, its moment, and facts unless the resource was deleted.
///
/// `bound` and `deleted` make changes, and keep this.
#[derive(Debug, Drop)]
pub struct Change {
    /// The name of the resource.
    pub name: Name,
    /// The kind of the change.
    pub what: What,
    /// When it happened.
    pub moment: Moment,
    /// The facts of the body that the name was bound to; `None` if the name was unbound.
    pub facts: Option<Facts>,
    pub ghost agreed: { IsTrue (agree what facts) },
}

impl Change {
    ghost use Rattle.rs_record.specs.Changes.{bound, deleted};

    /// Returns the change that binds the name to these facts: `Updated` if `again`, that is if the name was bound
    /// before, else `Created`.
    pub fn bound(name: Name, again: bool, moment: Moment, facts: Facts) -> Change
        ensures { result ≡ bound name again moment facts }
    {
        Change {
            name,
            what: if again { What::Updated } else { What::Created },
            moment,
            facts: Some(facts),
        }
    }

    /// Returns the change that unbinds the name.
    pub fn deleted(name: Name, moment: Moment) -> Change
        ensures { result ≡ deleted name moment }
    {
        Change {
            name,
            what: What::Deleted,
            moment,
            facts: None,
        }
    }

    /// Returns a copy of the change.
    ///
    /// # Errors
    ///
    /// An error if the memory for the copy was refused.
    pub fn copy(&self, alloc: Global) -> Result<Change, AllocError>
        ensures { IfOk result (λ change. change ≡ self.now) }
    {
        let facts = match &self.facts {
            Some(facts) => Some(facts.copy(alloc)?),
            None => None,
        };
        Ok(Change {
            name: self.name.copy(alloc)?,
            what: self.what,
            moment: self.moment,
            facts,
        })
    }
}
