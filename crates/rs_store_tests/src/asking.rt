//! Commands as rows of a table, and the contents of a source as one line of text.

use rs_disk::MemoryDisk;
use rs_io::Watched;
use rs_model::{Body, Item, Reply};
use rs_record::{MediaType, Name};
use rs_store::{Refusal, Source};
use rs_time::Moment;
use std::process::Abort;

/// A command to a source. Bodies have the type `text/plain`.
#[derive(Clone, Copy, Debug)]
pub(super) enum Asked {
    /// A put of this name with this body.
    Put(&'static [u8], &'static [u8]),
    /// A put of this name whose body a reader brings.
    Receive(&'static [u8], &'static [u8]),
    /// A delete of this name.
    Delete(&'static [u8]),
    /// A publish.
    Publish,
    /// A group of puts and deletes.
    Group(&'static [Part]),
}

/// An item of a group. Bodies have the type `text/plain`.
#[derive(Clone, Copy, Debug)]
pub(super) enum Part {
    /// A put of this name with this body.
    Held(&'static [u8], &'static [u8]),
    /// A delete of this name.
    Gone(&'static [u8]),
}

/// An answer: a reply with its moment in milliseconds, or a refusal. It has plain numbers, so that rows can be
/// constants.
#[derive(Clone, Copy, Debug, PartialEq, Eq)]
pub(super) enum Answer {
    Created(u64),
    Updated(u64),
    Deleted(u64),
    /// The number of the publication comes before the moment.
    Published(u64, u64),
    /// The number of the items comes before the moment of the first.
    Grouped(u8, u64),
    Refused(Refusal),
}

/// Returns a name.
pub(super) fn named(rt: &(impl Abort + AllocGlobal), name: &[u8]) -> Name {
    Name::new(rt.alloc(), name).expect(rt, "a name")
}

/// Returns the media type `text/plain`.
pub(super) fn plain(rt: &(impl Abort + AllocGlobal)) -> MediaType {
    MediaType::new(rt.alloc(), b"text/plain").expect(rt, "a media type")
}

/// Returns a disk of zeros.
pub(super) fn disk_of(rt: &(impl Abort + AllocGlobal), size: u64) -> MemoryDisk {
    MemoryDisk::new(rt.alloc(), size).expect(rt, "memory for a disk")
}

/// Returns a new source on a disk, with item limit 2, made at moment 0. Without a fault this takes six device calls.
pub(super) fn made(rt: &(impl Abort + AllocGlobal), disk: MemoryDisk) -> Source<MemoryDisk> {
    let now = Moment::first();
    match Source::format(rt.alloc(), disk, b"http://127.0.0.1:8080", 2, now) {
        Ok(source) => source,
        Err((_, fault)) => panic!(rt; "not formatted: {fault}"),
    }
}

/// Returns the source on a disk.
pub(super) fn opened(rt: &(impl Abort + AllocGlobal), disk: MemoryDisk) -> Source<MemoryDisk> {
    match Source::open(rt.alloc(), disk) {
        Ok(source) => source,
        Err((_, fault)) => panic!(rt; "not opened: {fault}"),
    }
}

/// Returns an item of a group.
fn item_of(rt: &(impl Abort + AllocGlobal), part: Part) -> Item {
    match part {
        Part::Held(name, body) => {
            let bytes = Vec::from_slice(rt.alloc(), body).expect(rt, "memory for a body");
            Item::Put {
                name: named(rt, name),
                kind: plain(rt),
                bytes: Body::new(bytes),
            }
        }
        Part::Gone(name) => Item::Delete {
            name: named(rt, name),
        },
    }
}

/// Returns the items of a group.
fn items_of(rt: &(impl Abort + AllocGlobal), parts: &[Part]) -> Vec<Item> {
    let mut items = Vec::new(rt.alloc());
    for part in parts {
        let item = item_of(rt, *part);
        items.push(item).expect(rt, "memory for items");
    }
    items
}

/// Returns the answer of a source to a command at moment 0.
pub(super) fn ask(
    rt: &(impl Abort + AllocGlobal),
    source: &mut Source<MemoryDisk>,
    asked: Asked,
) -> Answer {
    let now = Moment::first();
    let done = match asked {
        Asked::Put(name, body) => source.put(&named(rt, name), &plain(rt), body, now),
        Asked::Receive(name, body) => {
            let mut reader = Watched::new(body);
            let length = body.len() as u64;
            source.put_from(&named(rt, name), &plain(rt), &mut reader, length, now)
        }
        Asked::Delete(name) => source.delete(&named(rt, name), now),
        Asked::Publish => source.publish(now),
        Asked::Group(parts) => source.group(&items_of(rt, parts), now),
    };
    answer_of(&done)
}

/// Puts a resource of no bytes, publishes, and puts a second resource of no bytes. Without a fault the commands make 7,
/// 7 and 10 device calls, and leave a page of every list.
pub(super) fn ask_for_two_puts(rt: &(impl Abort + AllocGlobal), source: &mut Source<MemoryDisk>) {
    let _created = ask(rt, source, Asked::Put(b"a", b""));
    let _published = ask(rt, source, Asked::Publish);
    let _created = ask(rt, source, Asked::Put(b"b", b"abc"));
}

/// Returns an answer of a source.
pub(super) fn answer_of(done: &Result<Reply, Refusal>) -> Answer {
    match done {
        Ok(Reply::Created(moment)) => Answer::Created(moment.ms()),
        Ok(Reply::Updated(moment)) => Answer::Updated(moment.ms()),
        Ok(Reply::Deleted(moment)) => Answer::Deleted(moment.ms()),
        Ok(Reply::Published(number, moment)) => Answer::Published(*number, moment.ms()),
        Ok(Reply::Grouped(number, moment)) => Answer::Grouped(*number, moment.ms()),
        Err(refusal) => Answer::Refused(*refusal),
    }
}

/// Appends text, given as bytes.
pub(super) fn tell(rt: &impl Abort, text: &mut String, bytes: &[u8]) {
    let more = std::str::from_utf8(bytes).expect(rt, "text");
    text.push_str(more).expect(rt, "memory for text");
}

/// Appends the names that are held, with their bodies.
fn tell_held(rt: &impl Abort, source: &mut Source<MemoryDisk>, text: &mut String) {
    for record in &source.records().expect(rt, "records") {
        let body = source.body(&record.name).expect(rt, "a body");
        tell(rt, text, b" ");
        tell(rt, text, record.name.bytes());
        tell(rt, text, b"=");
        tell(rt, text, &body);
    }
}

/// Appends the changes that are kept.
fn tell_changes(rt: &impl Abort, source: &Source<MemoryDisk>, text: &mut String) {
    for change in &source.changes().expect(rt, "changes") {
        let what = change.what;
        write!(text, " {what:?} ").expect(rt, "memory for text");
        tell(rt, text, change.name.bytes());
    }
}

/// Appends the number of the latest publication, and the names that it lists.
fn tell_published(rt: &impl Abort, source: &Source<MemoryDisk>, text: &mut String) {
    let number = source.status().expect(rt, "a status").publication;
    write!(text, " {number}:").expect(rt, "memory for text");
    for record in &source.published().expect(rt, "published records") {
        tell(rt, text, b" ");
        tell(rt, text, record.name.bytes());
    }
}

/// Checks that a source has this content.
pub(super) fn tells(rt: &(impl Abort + AllocGlobal), source: &mut Source<MemoryDisk>, want: &str) {
    let text = told(rt, source);
    assert_eq!(rt; text.as_str(), want);
}

/// Returns the content of a source, as `held: a=one; changes: Created a; published 1: a`.
pub(super) fn told(rt: &(impl Abort + AllocGlobal), source: &mut Source<MemoryDisk>) -> String {
    let mut text = String::new(rt.alloc());
    tell(rt, &mut text, b"held:");
    tell_held(rt, source, &mut text);
    tell(rt, &mut text, b"; changes:");
    tell_changes(rt, source, &mut text);
    tell(rt, &mut text, b"; published");
    tell_published(rt, source, &mut text);
    text
}
