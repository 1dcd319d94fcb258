//! The data that a source shows.

ghost use Rattle.std.specs.Prelude.{◌≡◌, ◌⊎◌, ◌↔◌, ◌+◌, ◌/◌, false, map, IfOk, IfErr, IfSome, IsErrOf, IsOkUnless, Some, IsTrue};
ghost use Rattle.rs_disk.specs.Runs.{RunsReading, CallsAtMost};
ghost use Rattle.rs_model.specs.Names.{value_of, is_ordered};
ghost use Rattle.rs_model.specs.State.{body_of, entries};
ghost use Rattle.rs_model.specs.Step.{is_held};
ghost use Rattle.rs_model.specs.Listed.{entry_of};
ghost use Rattle.rs_catalogue.specs.Named.{named};
ghost use Rattle.rs_catalogue.specs.Catalogue.{records_of};
ghost use Rattle.rs_changes.specs.History.{changes_of};
ghost use Rattle.rs_store.specs.Source.{state_of};
ghost use Rattle.rs_store.specs.Shows.{AreAsRecorded, HasItsDigest, IsOfBody, IsOfKind, kind_of, status_of};
ghost use Rattle.rs_store.specs.AnswersBody.{AnswersBody};
ghost use Rattle.rs_store.specs.OnlyReads.{OnlyReads};
ghost use Rattle.rs_store.specs.Views.{shown_in, shown_by_source};

use crate::{Refusal, Source, SourceView};
use rs_body::{LoadFault, read_in_pieces};
use rs_catalogue::Catalogue;
use rs_changes::History;
use rs_disk::Disk;
use rs_record::{Change, MediaType, Name, Record};
use rs_time::Moment;
use std::alloc::{AllocError, Global};

/// A source in numbers.
#[derive(Clone, Copy, Debug, PartialEq, Eq)]
pub struct Status {
    /// The number of held resources: at most 50,000.
    pub resources: u32,
    /// The number of kept changes: at most 50,000.
    pub changes: u32,
    /// The number of the latest publication, 0 for the one of formatting.
    pub publication: u64,
    /// The moment of the last accepted command, or of formatting.
    pub last: Moment,
}

impl From<LoadFault> for Refusal {
    ghost use Rattle.rs_store.specs.Bodies.{refusal_of_body};

    ghost from_gives = { λ fault refusal. refusal ≡ refusal_of_body fault };

    fn from(fault: LoadFault) -> Refusal {
        match fault {
            LoadFault::Device => Refusal::Device,
            LoadFault::Damaged => Refusal::Damaged,
            LoadFault::NoMemory => Refusal::NoMemory,
        }
    }
}

impl<D: Disk> Source<D> {
    /// Returns whether a device call of a command failed. Then the source has to be opened again.
    pub fn is_closed(&self) -> bool
        ensures { result ≡ self.now.is_closed }
    {
        self.is_closed
    }

    /// Returns the disk unchanged.
    pub fn into_disk(self) -> D
        ensures { result ≡ self.disk }
    {
        self.disk
    }

    /// Reads the body of a name from the disk, with its recorded length and SHA-256: once, in pieces of
    /// 262,144 bytes. Only the counts of the disk change.
    ///
    /// # Errors
    ///
    /// - [`Refusal::Closed`] exactly if the source is closed.
    /// - [`Refusal::NotHeld`] exactly if it is open and does not hold the name.
    /// - [`Refusal::Device`] if the device failed. The source stays open.
    /// - [`Refusal::Damaged`] if the bytes do not have the recorded SHA-256.
    /// - [`Refusal::NoMemory`] if memory for the bytes runs out.
    pub fn body(&mut self, name: &Name) -> Result<Vec<u8>, Refusal>
        ensures { AnswersBody D.state self.old self.new name.now result }
    {
        self.read_held(name)
    }

    /// Reads the body of a name. The contract lists its clauses separately.
    fn read_held(&mut self, name: &Name) -> Result<Vec<u8>, Refusal>
        // The bytes are the body if the device has followed the model. From every device they are as
        // recorded.
        ensures reads { IfOk result (λ bytes. IsTrue (D.state self.new.disk).honest
            → body_of name.now (state_of D.state self.old) ≡ Some bytes.items) }
        ensures recorded { IfOk result
            (λ bytes. IfSome (value_of name.now (state_of D.state self.old).held)
            (λ held. AreAsRecorded held.entry.facts bytes.items)) }

        ensures closed { IsErrOf result Refusal.Closed ↔ IsTrue self.old.is_closed }
        ensures not_held { IsErrOf result Refusal.NotHeld
            ↔ ((self.old.is_closed ≡ false)
            × (is_held (state_of D.state self.old) name.now ≡ false)) }
        ensures damaged { IsErrOf result Refusal.Damaged
            → IsTrue (D.state self.new.disk).honest
            → IfSome (value_of name.now (state_of D.state self.old).held)
            (λ held. ¬ HasItsDigest held) }
        ensures once { IfSome (value_of name.now (state_of D.state self.old).held)
            (λ held. CallsAtMost ((held.entry.facts.length + 262143) / 262144)
            (D.state self.old.disk) (D.state self.new.disk)) }
        ensures unread { IsErrOf result Refusal.Closed ⊎ IsErrOf result Refusal.NotHeld
            → self.new ≡ self.old }
        ensures runs { RunsReading (IsErrOf result Refusal.Device)
            (D.state self.old.disk) (D.state self.new.disk) }
        ensures others { IfErr result IsOfBody }

        ensures reads_only { OnlyReads D.state self.old self.new }
    {
        if self.is_closed {
            return Err(Refusal::Closed);
        }
        let Some(record) = self.contents.catalogue.get(name) else {
            return Err(Refusal::NotHeld);
        };
        let sha256 = record.digests.sha256;
        let (extent, length) = (record.extent, record.length);
        let mut bytes = Vec::new(self.alloc);
        read_in_pieces(&mut self.disk, extent, length, &sha256, &mut bytes)?;
        Ok(bytes)
    }

    /// Returns a copy of the recorded media type of a name. The disk is not read.
    ///
    /// # Errors
    ///
    /// - [`Refusal::Closed`] exactly if the source is closed.
    /// - [`Refusal::NotHeld`] exactly if it is open and does not hold the name.
    /// - [`Refusal::NoMemory`] if memory for the copy runs out.
    pub fn kind(&self, name: &Name) -> Result<MediaType, Refusal>
        ensures kind { IfOk result (λ kind. kind_of name.now (state_of D.state self.now)
            ≡ Some kind) }
        ensures closed { IsErrOf result Refusal.Closed ↔ IsTrue self.now.is_closed }
        ensures not_held { IsErrOf result Refusal.NotHeld
            ↔ ((self.now.is_closed ≡ false)
            × (is_held (state_of D.state self.now) name.now ≡ false)) }
        ensures others { IfErr result IsOfKind }
    {
        if self.is_closed {
            return Err(Refusal::Closed);
        }
        let Some(record) = self.contents.catalogue.get(name) else {
            return Err(Refusal::NotHeld);
        };
        Ok(record.kind.copy(self.alloc)?)
    }

    /// Returns the records of the held resources, in the strictly ascending order of their names' bytes.
    ///
    /// # Errors
    ///
    /// [`Refusal::Closed`] exactly if the source is closed, [`Refusal::NoMemory`] if memory runs out.
    pub fn records(&self) -> Result<Vec<Record>, Refusal>
        ensures entries { IfOk result (λ records. map entry_of records.items
            ≡ entries (state_of D.state self.now).held) }
        ensures stored { IfOk result
            (λ records. records.items ≡ records_of self.now.contents.catalogue) }
        ensures ascending { IfOk result (λ records. IsTrue (is_ordered (named records.items))) }
        ensures closed { IsErrOf result Refusal.Closed ↔ IsTrue self.now.is_closed }
        ensures no_memory { self.now.is_closed ≡ false → IsOkUnless result Refusal.NoMemory }
    {
        if self.is_closed {
            return Err(Refusal::Closed);
        }
        Ok(records_in(self.alloc, &self.contents.catalogue)?)
    }

    /// Returns the records of the latest publication, in the strictly ascending order of their names' bytes. A record
    /// has the extent of its body at the publication. By now that extent may hold another body.
    ///
    /// # Errors
    ///
    /// [`Refusal::Closed`] exactly if the source is closed, [`Refusal::NoMemory`] if memory runs out.
    pub fn published(&self) -> Result<Vec<Record>, Refusal>
        ensures entries { IfOk result (λ records. map entry_of records.items
            ≡ (state_of D.state self.now).listed) }
        ensures stored { IfOk result
            (λ records. records.items ≡ records_of self.now.contents.published) }
        ensures ascending { IfOk result (λ records. IsTrue (is_ordered (named records.items))) }
        ensures closed { IsErrOf result Refusal.Closed ↔ IsTrue self.now.is_closed }
        ensures no_memory { self.now.is_closed ≡ false → IsOkUnless result Refusal.NoMemory }
    {
        if self.is_closed {
            return Err(Refusal::Closed);
        }
        Ok(records_in(self.alloc, &self.contents.published)?)
    }

    /// Returns the kept changes, the earliest first.
    ///
    /// # Errors
    ///
    /// [`Refusal::Closed`] exactly if the source is closed, [`Refusal::NoMemory`] if memory runs out.
    pub fn changes(&self) -> Result<Vec<Change>, Refusal>
        ensures changes { IfOk result
            (λ changes. changes.items ≡ (state_of D.state self.now).changes) }
        ensures closed { IsErrOf result Refusal.Closed ↔ IsTrue self.now.is_closed }
        ensures no_memory { self.now.is_closed ≡ false → IsOkUnless result Refusal.NoMemory }
    {
        if self.is_closed {
            return Err(Refusal::Closed);
        }
        Ok(changes_in(self.alloc, &self.contents.history)?)
    }

    /// Returns the source in numbers. It allocates nothing.
    ///
    /// # Errors
    ///
    /// [`Refusal::Closed`] exactly if the source is closed.
    pub fn status(&self) -> Result<Status, Refusal>
        ensures status { IfOk result (λ status. status ≡ status_of (state_of D.state self.now)) }
        ensures closed { IsErrOf result Refusal.Closed ↔ IsTrue self.now.is_closed }
        ensures only { IsOkUnless result Refusal.Closed }
    {
        if self.is_closed {
            return Err(Refusal::Closed);
        }
        let contents = &self.contents;
        Ok(Status {
            resources: contents.catalogue.len() as u32,
            changes: contents.history.len() as u32,
            publication: contents.header.number,
            last: contents.header.last,
        })
    }

    /// Returns a view of the source for its documents. It borrows the source, copies nothing and allocates nothing.
    ///
    /// # Errors
    ///
    /// [`Refusal::Closed`] exactly if the source is closed.
    pub fn view(&self) -> Result<SourceView<'_, D>, Refusal>
        ensures shows { IfOk result (λ view. shown_by_source view ≡ shown_in self.now.contents) }
        ensures closed { IsErrOf result Refusal.Closed ↔ IsTrue self.now.is_closed }
        ensures only { IsOkUnless result Refusal.Closed }
    {
        if self.is_closed {
            return Err(Refusal::Closed);
        }
        Ok(SourceView { source: self })
    }
}

/// Returns copies of the records of a catalogue, in their order.
fn records_in(alloc: Global, catalogue: &Catalogue) -> Result<Vec<Record>, AllocError>
    ensures records { IfOk result (λ records. records.items ≡ records_of catalogue.now) }
    ensures ascending { IfOk result (λ records. IsTrue (is_ordered (named records.items))) }
{
    let len = catalogue.len();
    let mut records = Vec::with_capacity(alloc, len)?;
    for i in 0..len {
        records.push(catalogue.at(i).copy(alloc)?)?;
    }
    Ok(records)
}

/// Returns copies of the changes of a history, in their order.
fn changes_in(alloc: Global, history: &History) -> Result<Vec<Change>, AllocError>
    ensures { IfOk result (λ changes. changes.items ≡ changes_of history.now.pages) }
{
    let len = history.len();
    let mut changes = Vec::with_capacity(alloc, len)?;
    for i in 0..len {
        changes.push(history.at(i).copy(alloc)?)?;
    }
    Ok(changes)
}
