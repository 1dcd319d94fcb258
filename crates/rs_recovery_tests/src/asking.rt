//! Commands as the tests write them, and a source as one line of text.

use rs_disk::{Disk, MemoryDisk};
use rs_model::{Body, Command, Reply};
use rs_record::{MediaType, Name};
use rs_store::{Ack, OpenFault, Refusal, Source};
use rs_time::Moment;
use std::alloc::Global;
use std::test::Fail;

/// A command as the tests write it. All bodies are `text/plain`.
#[derive(Clone, Copy, Debug)]
pub(super) enum Asked {
    /// A put of this name with this body.
    Put(&'static [u8], &'static [u8]),
    /// A delete of this name.
    Delete(&'static [u8]),
    /// A publish.
    Publish,
}

/// An answer: a reply with its moment, in milliseconds, or a refusal. Its plain numbers allow constant rows.
#[derive(Clone, Copy, Debug, PartialEq, Eq)]
pub(super) enum Answer {
    Created(u64),
    Updated(u64),
    Deleted(u64),
    /// The number of the publication comes before the moment.
    Published(u64, u64),
    /// The number of the items comes before the moment of the first.
    Grouped(u8, u64),
    Refused(Refusal),
}

/// Returns the moment `ms` milliseconds after 1970-01-01T00:00:00.000Z.
pub(super) fn at(ms: u64) -> Result<Moment, Fail> {
    Ok(Moment::new(ms).ok_or("a moment")?)
}

/// Returns the command of a test.
fn command_of(alloc: Global, asked: Asked) -> Result<Command, Fail> {
    match asked {
        Asked::Put(name, body) => Ok(Command::Put {
            name: Name::new(alloc, name)?,
            kind: MediaType::new(alloc, b"text/plain")?,
            bytes: Body::new(Vec::from_slice(alloc, body)?),
        }),
        Asked::Delete(name) => Ok(Command::Delete {
            name: Name::new(alloc, name)?,
        }),
        Asked::Publish => Ok(Command::Publish),
    }
}

/// Returns these commands, all at the moment `now`, in milliseconds.
pub(super) fn commands_of(
    alloc: Global,
    asked: &[Asked],
    now: u64,
) -> Result<Vec<(Command, Moment)>, Fail> {
    let now = at(now)?;
    let mut commands = Vec::new(alloc);
    for one in asked {
        commands.push((command_of(alloc, *one)?, now))?;
    }
    Ok(commands)
}

/// Returns the answer in `ack`.
pub(super) fn answer_of(ack: &Ack) -> Answer {
    match ack.reply {
        Ok(Reply::Created(moment)) => Answer::Created(moment.ms()),
        Ok(Reply::Updated(moment)) => Answer::Updated(moment.ms()),
        Ok(Reply::Deleted(moment)) => Answer::Deleted(moment.ms()),
        Ok(Reply::Published(number, moment)) => Answer::Published(number, moment.ms()),
        Ok(Reply::Grouped(number, moment)) => Answer::Grouped(number, moment.ms()),
        Err(refusal) => Answer::Refused(refusal),
    }
}

/// Returns the bytes of a disk of 16,384 bytes on which an empty source was formatted at the moment 0, with the item
/// limit 2.
pub(super) fn formatted(alloc: Global) -> Result<Vec<u8>, Fail> {
    let disk = MemoryDisk::new(alloc, 16384)?;
    match Source::format(alloc, disk, b"http://127.0.0.1:8080", 2, at(0)?) {
        Ok(source) => Ok(source.into_disk().image(&[])?),
        Err((_, fault)) => Err(fault.into()),
    }
}

/// Appends the held names, with their bodies.
fn tell_held<D: Disk>(source: &mut Source<D>, text: &mut String) -> Result<(), Fail> {
    for record in &source.records()? {
        let body = source.body(&record.name)?;
        let name = std::str::from_utf8(record.name.bytes())?;
        let body = std::str::from_utf8(&body)?;
        write!(text, " {name}={body}")?;
    }
    Ok(())
}

/// Appends the names that the latest publication lists.
fn tell_published<D: Disk>(source: &Source<D>, text: &mut String) -> Result<(), Fail> {
    for record in &source.published()? {
        let name = std::str::from_utf8(record.name.bytes())?;
        write!(text, " {name}")?;
    }
    Ok(())
}

/// Returns a source as one line of text, such as `held: a=one; published 1: a; changes 1; last 2`.
pub(super) fn told<D: Disk>(alloc: Global, source: &mut Source<D>) -> Result<String, Fail> {
    let mut text = String::from_str(alloc, "held:")?;
    tell_held(source, &mut text)?;
    let status = source.status()?;
    let (number, changes, last) = (status.publication, status.changes, status.last.ms());
    write!(text, "; published {number}:")?;
    tell_published(source, &mut text)?;
    write!(text, "; changes {changes}; last {last}")?;
    Ok(text)
}

/// Returns the source that an image opens to, as one line of text.
pub(super) fn told_by(alloc: Global, image: &[u8]) -> Result<String, Fail> {
    let disk = MemoryDisk::from_bytes(alloc, image)?;
    match rs_recovery::recover(alloc, disk) {
        Ok(source) => {
            let mut source = source;
            told(alloc, &mut source)
        }
        Err((_, fault)) => Err(fault.into()),
    }
}

/// The answers of a run, or no answers if the source was not opened, and the disk.
pub(super) type Ran = (Vec<Ack>, MemoryDisk);

/// Opens the source on a disk and runs commands on it.
pub(super) fn ran(
    alloc: Global,
    disk: MemoryDisk,
    commands: &[(Command, Moment)],
) -> Result<Ran, Fail> {
    match Source::open(alloc, disk) {
        Ok(source) => {
            let mut source = source;
            let acks = source.run(commands)?;
            Ok((acks, source.into_disk()))
        }
        Err((disk, OpenFault::Device)) => Ok((Vec::new(alloc), disk)),
        Err((_, fault)) => Err(fault.into()),
    }
}
