//! Commands, the replies to them, and the refusals.

ghost use Rattle.std.specs.Prelude.{◌≡◌};
ghost use Rattle.rs_model.specs.Grouping.{name_of};
ghost use Rattle.rs_model.specs.declared.command.StepError.TheVariants.{NoMemory};

use crate::Body;
use rs_record::{Duplicate, MediaType, Name, duplicate_all};
use rs_time::Moment;
use std::alloc::{AllocError, Global};
use std::marker::Model;
use thiserror::Error;

/// The greatest number of items of a group.
pub const MOST_GROUPED: usize = 16;

/// One of the changes that a group asks for.
#[derive(Debug, Drop)]
pub enum Item {
    /// Bind the name to these bytes, of this media type.
    Put {
        name: Name,
        kind: MediaType,
        bytes: Body,
    },
    /// Unbind the name.
    Delete {
        name: Name,
    },
}

impl Item {
    /// Returns the name that it binds or unbinds.
    pub fn name(&self) -> &Name
        ensures { result.now ≡ name_of self.now }
    {
        match self {
            Item::Put { name, .. } => name,
            Item::Delete { name } => name,
        }
    }
}

impl Duplicate for Item {
    fn duplicate(&self, alloc: Global) -> Result<Item, AllocError> {
        match self {
            Item::Put { name, kind, bytes } => Ok(Item::Put {
                name: name.copy(alloc)?,
                kind: kind.copy(alloc)?,
                bytes: bytes.duplicate(alloc)?,
            }),
            Item::Delete { name } => Ok(Item::Delete {
                name: name.copy(alloc)?,
            }),
        }
    }
}

/// The items of a group, of any number. A source accepts 1 to 16. Contracts see their list.
#[derive(Debug, Drop)]
pub struct Group {
    items: Vec<Item>,
}

impl Model for Group {
    ghost use Rattle.std.specs.Prelude.{List};
    ghost use Rattle.rs_model.specs.declared.command.Item.{Item};

    ghost Value = { List Item };

    ghost view = { λ g. g.items.items };
}

impl Group {
    /// Returns the group of these items, in this order.
    pub fn new(items: Vec<Item>) -> Group
        ensures { result ≡ items.items }
    {
        Group { items }
    }

    /// Returns its items, in their order.
    pub fn items(&self) -> &[Item]
        ensures { result.now ≡ self.now }
    {
        self.items.as_slice()
    }

    /// Moves out its items.
    pub(crate) fn into_items(self) -> Vec<Item>
        ensures { result.items ≡ self }
    {
        self.items
    }
}

impl Duplicate for Group {
    fn duplicate(&self, alloc: Global) -> Result<Group, AllocError> {
        let items = duplicate_all(alloc, self.items())?;
        Ok(Group { items })
    }
}

/// A request of a depositor to a source.
#[derive(Debug, Drop)]
pub enum Command {
    /// Bind the name to these bytes, of this media type. This creates the resource, or updates it where the name is
    /// held.
    Put {
        name: Name,
        kind: MediaType,
        bytes: Body,
    },
    /// Unbind the name. This deletes the resource.
    Delete {
        name: Name,
    },
    /// List all resources that are held, as the next publication.
    Publish,
    /// Bind and unbind names in one step: 1 to 16 items in their order, all or none.
    Group(Group),
}

impl Duplicate for Command {
    fn duplicate(&self, alloc: Global) -> Result<Command, AllocError> {
        match self {
            Command::Put { name, kind, bytes } => Ok(Command::Put {
                name: name.copy(alloc)?,
                kind: kind.copy(alloc)?,
                bytes: bytes.duplicate(alloc)?,
            }),
            Command::Delete { name } => Ok(Command::Delete {
                name: name.copy(alloc)?,
            }),
            Command::Publish => Ok(Command::Publish),
            Command::Group(group) => Ok(Command::Group(group.duplicate(alloc)?)),
        }
    }
}

/// The reply to an accepted command, with the moment at which it was accepted.
#[derive(Clone, Copy, Debug, PartialEq, Eq)]
pub enum Reply {
    /// The name was not held, and is held now.
    Created(Moment),
    /// The name was held already, and has other bytes now.
    Updated(Moment),
    /// The name is no longer held.
    Deleted(Moment),
    /// The publication of this number lists the held resources.
    Published(u64, Moment),
    /// This number of items of a group is done, the first at this moment.
    Grouped(u8, Moment),
}

/// The cause for which a source refuses a command. Where several causes hold, the answer is the first in this order. A
/// refused command leaves the state unchanged and uses up no moment.
#[derive(Clone, Copy, Debug, PartialEq, Eq, Error)]
pub enum Refusal {
    /// A group of no items, or of more than 16.
    #[error("a group has 1 to 16 items")]
    BadGroup,
    /// A put of a body of more than 16,777,216 bytes.
    #[error("the body is longer than 16777216 bytes")]
    TooLong,
    /// A delete of a name that is not held.
    #[error("the resource is not held")]
    NotHeld,
    /// A put of a name that is not held, where 50,000 are.
    #[error("50000 resources are held")]
    TooManyResources,
    /// A put or a delete where 50,000 changes are kept.
    #[error("50000 changes are kept")]
    TooManyChanges,
    /// Any command after the greatest moment. A publish after the greatest publication number, or where the first kept
    /// part of the changes would get a number above 253,402,300,799,999, which no regular state reaches.
    #[error("no moment or no publication number is left")]
    Exhausted,
}

/// The cause for which a step failed.
#[derive(Clone, Copy, Debug, PartialEq, Eq, Error)]
pub enum StepError {
    /// The source does not accept the command.
    #[error("{0}")]
    Refused(Refusal),
    /// A growth of memory was refused.
    #[error("out of memory")]
    NoMemory,
}

impl From<AllocError> for StepError {
    ghost from_gives = { λ _ e. e ≡ NoMemory };

    fn from(_error: AllocError) -> StepError {
        StepError::NoMemory
    }
}
