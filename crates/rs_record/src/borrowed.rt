//! Values as they were read: their texts still lie in the bytes that were read.

ghost use Rattle.std.specs.Prelude.{◌≡◌, IfOk, IsTrue};
ghost use Rattle.rs_record.specs.Name.{is_name};
ghost use Rattle.rs_record.specs.MediaType.{is_media_type};

use crate::{Change, Facts, MediaType, Name, Record};
use rs_extent::Extent;
use rs_fixity::Digests;
use rs_time::Moment;
use std::alloc::{AllocError, Global};

/// Facts that were read.
#[derive(Clone, Copy)]
pub struct FactsFields<'a> {
    pub kind: &'a [u8],
    pub length: u32,
    pub digests: Digests,
}

impl FactsFields<'_> {
    ghost use Rattle.rs_record.specs.Borrowed.{facts_seen};

    /// Returns the facts, with memory of their own.
    pub fn to_facts(&self, alloc: Global) -> Result<Facts, AllocError>
        requires { IsTrue (is_media_type self.now.kind.now) }
        ensures { IfOk result (λ facts. facts ≡ facts_seen self.now) }
    {
        Ok(Facts {
            kind: MediaType::from_lawful(alloc, self.kind)?,
            length: self.length,
            digests: self.digests,
        })
    }
}

/// A record that was read.
#[derive(Clone, Copy)]
pub struct RecordFields<'a> {
    pub name: &'a [u8],
    pub facts: FactsFields<'a>,
    pub moment: Moment,
    pub extent: Extent,
}

impl RecordFields<'_> {
    ghost use Rattle.rs_record.specs.Borrowed.{record_seen};

    /// Returns the record, with memory of its own.
    pub fn to_record(&self, alloc: Global) -> Result<Record, AllocError>
        requires name { IsTrue (is_name self.now.name.now) }
        requires kind { IsTrue (is_media_type self.now.facts.kind.now) }
        ensures { IfOk result (λ made. made ≡ record_seen self.now) }
    {
        Ok(Record {
            name: Name::from_lawful(alloc, self.name)?,
            kind: MediaType::from_lawful(alloc, self.facts.kind)?,
            length: self.facts.length,
            digests: self.facts.digests,
            moment: self.moment,
            extent: self.extent,
        })
    }
}

/// A change that was read.
#[derive(Clone, Copy)]
pub enum ChangeFields<'a> {
    Bound {
        name: &'a [u8],
        again: bool,
        moment: Moment,
        facts: FactsFields<'a>,
    },
    Deleted {
        name: &'a [u8],
        moment: Moment,
    },
}

impl ChangeFields<'_> {
    ghost use Rattle.rs_record.specs.Borrowed.{change_seen, AreLawfulTexts};

    /// Returns the change, with memory of its own.
    pub fn to_change(&self, alloc: Global) -> Result<Change, AllocError>
        requires { AreLawfulTexts self.now }
        ensures { IfOk result (λ made. made ≡ change_seen self.now) }
    {
        match self {
            ChangeFields::Bound {
                name,
                again,
                moment,
                facts,
            } => {
                let name = Name::from_lawful(alloc, name)?;
                Ok(Change::bound(name, *again, *moment, facts.to_facts(alloc)?))
            }
            ChangeFields::Deleted { name, moment } => {
                Ok(Change::deleted(Name::from_lawful(alloc, name)?, *moment))
            }
        }
    }
}
