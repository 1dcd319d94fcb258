//! The search for damaged bodies.

ghost use Rattle.std.specs.Prelude.{◌≡◌, ◌∷◌, ◌++◌, [], ◌≤◌, ◌+◌, ◌/◌, length, map, All, IfErr, IfOk, OnOk, IsErrOf, IsTrue};
ghost use Rattle.rs_disk.specs.Runs.{RunsReading, CallsAtMost};
ghost use Rattle.rs_catalogue.specs.Catalogue.{records_of};
ghost use Rattle.rs_image.specs.StateOfImage.{held_in};
ghost use Rattle.rs_store.specs.Shows.{calls_for_held};
ghost use Rattle.rs_store.specs.Verified.{AnswersVerify, HasItsPlace, IsOfLook, damaged_among};

use crate::{Refusal, Source};
use rs_body::is_intact;
use rs_catalogue::Catalogue;
use rs_disk::Disk;
use rs_record::{Name, Record};
use std::alloc::{AllocError, Global};

impl<D: Disk> Source<D> {
    /// Returns the held names whose body does not have its recorded SHA-256, in the strictly ascending order of their
    /// bytes. It reads every body once, in pieces of 16,384 bytes, and allocates for the names alone. Only the counts
    /// of the disk change.
    ///
    /// # Errors
    ///
    /// - [`Refusal::Closed`] exactly if the source is closed.
    /// - [`Refusal::Device`] if the device failed. The source stays open.
    /// - [`Refusal::NoMemory`] if memory for the names runs out.
    pub fn verify(&mut self) -> Result<Vec<Name>, Refusal>
        ensures { AnswersVerify D.state self.old self.new result }
    {
        if self.is_closed {
            return Err(Refusal::Closed);
        }
        damaged_in(self.alloc, &mut self.disk, &self.contents.catalogue)
    }
}

/// Returns the names of the records of a catalogue whose body on the disk is damaged, in their order.
fn damaged_in<D: Disk>(
    alloc: Global,
    disk: &mut D,
    catalogue: &Catalogue,
) -> Result<Vec<Name>, Refusal>
    requires { All (HasItsPlace (D.state disk.old).size) (records_of catalogue.now) }
    ensures names { IfOk result (λ names. IsTrue (D.state disk.new).honest → names.items
        ≡ damaged_among (map (held_in (D.state disk.old).now.seen) (records_of catalogue.now))) }
    ensures few { IfOk result (λ names. length names.items ≤ length (records_of catalogue.now)) }
    ensures once { CallsAtMost (calls_for_held (map (held_in (D.state disk.old).now.seen) (records_of catalogue.now)))
        (D.state disk.old) (D.state disk.new) }
    ensures others { IfErr result IsOfLook }
    ensures runs { RunsReading (IsErrOf result Refusal.Device) (D.state disk.old) (D.state disk.new) }
{
    let mut names = Vec::new(alloc);
    for i in 0..catalogue.len() {
        note_damage(alloc, disk, catalogue.at(i), &mut names)?;
    }
    Ok(names)
}

/// Reads the body of a record, and adds the name to the others if it is damaged.
fn note_damage<D: Disk>(
    alloc: Global,
    disk: &mut D,
    held: &Record,
    names: &mut Vec<Name>,
) -> Result<(), Refusal>
    requires { HasItsPlace (D.state disk.old).size held.now }
    ensures names { OnOk result (IsTrue (D.state disk.new).honest → names.new.items
        ≡ names.old.items ++ damaged_among (held_in (D.state disk.old).now.seen held.now ∷ [])) }
    ensures few { OnOk result (length names.new.items ≤ length names.old.items + 1) }
    ensures once { CallsAtMost ((held.now.length + 16383) / 16384) (D.state disk.old) (D.state disk.new) }
    ensures others { IfErr result IsOfLook }
    ensures runs { RunsReading (IsErrOf result Refusal.Device) (D.state disk.old) (D.state disk.new) }
{
    match is_intact(disk, held.extent, held.length, &held.digests.sha256) {
        Ok(true) => Ok(()),
        Ok(false) => Ok(add_copy(alloc, &held.name, names)?),
        Err(_) => Err(Refusal::Device),
    }
}

/// Appends a copy of a name to the others.
fn add_copy(alloc: Global, name: &Name, names: &mut Vec<Name>) -> Result<(), AllocError>
    ensures { OnOk result (names.new.items ≡ names.old.items ++ name.now ∷ []) }
{
    names.push(name.copy(alloc)?)?;
    Ok(())
}
