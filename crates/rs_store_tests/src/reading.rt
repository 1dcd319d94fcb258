//! Reading a source: bodies, also while a device call fails, media types, and the view that its documents are written
//! from.

use super::asking::{ask_for_two_puts, disk_of, made, named, opened, tell};
use rs_disk::{Disk, MemoryDisk};
use rs_lists::View;
use rs_store::{Refusal, Source};
use std::process::Abort;

/// Appends a refusal.
fn tell_refusal(rt: &impl Abort, text: &mut String, refusal: Refusal) {
    write!(text, "{refusal:?}").expect(rt, "memory for text");
}

/// Appends the body of a name and its media type, or the refusals.
fn tell_of(
    rt: &(impl Abort + AllocGlobal),
    source: &mut Source<MemoryDisk>,
    name: &[u8],
    text: &mut String,
) {
    let name = named(rt, name);
    match source.body(&name) {
        Ok(bytes) => tell(rt, text, &bytes),
        Err(refusal) => tell_refusal(rt, text, refusal),
    }
    tell(rt, text, b" ");
    match source.kind(&name) {
        Ok(kind) => tell(rt, text, kind.bytes()),
        Err(refusal) => tell_refusal(rt, text, refusal),
    }
    tell(rt, text, b";");
}

/// Checks the answers of a source for two resources and for a name that it does not hold.
fn tells(rt: &(impl Abort + AllocGlobal), source: &mut Source<MemoryDisk>) {
    ask_for_two_puts(rt, source);
    let mut text = String::new(rt.alloc());
    tell_of(rt, source, b"z", &mut text);
    tell_of(rt, source, b"a", &mut text);
    tell_of(rt, source, b"b", &mut text);
    tell_of(rt, source, b"b", &mut text);
    assert_eq!(rt;
        text.as_str(),
        "NotHeld NotHeld; text/plain;Device text/plain;abc text/plain;"
    );
}

#[test]
fn bodies_and_a_device_that_fails(rt: HostRuntime) {
    let mut disk = disk_of(&rt, 65536);
    // The formatting makes six calls, and the commands 24. The next call is the first read of `b`: a name that is not
    // held and a body of no bytes need no read. It fails, but the source stays open.
    disk.fail_once(30);
    let mut source = made(&rt, disk);
    tells(&rt, &mut source);
}

/// Appends the names of the damaged bodies, or the refusal.
fn tell_damaged(
    rt: &(impl Abort + AllocGlobal),
    source: &mut Source<MemoryDisk>,
    text: &mut String,
) {
    match source.verify() {
        Ok(names) => {
            for name in &names {
                tell(rt, text, name.bytes());
                tell(rt, text, b" ");
            }
        }
        Err(refusal) => tell_refusal(rt, text, refusal),
    }
    tell(rt, text, b";");
}

/// Returns the source with one byte changed in the body of its second resource.
fn with_a_wrong_byte(
    rt: &(impl Abort + AllocGlobal),
    source: Source<MemoryDisk>,
) -> Source<MemoryDisk> {
    let records = source.records().expect(rt, "records");
    let first = records.get(1).expect(rt, "a second record").extent.first;
    let mut disk = source.into_disk();
    let at = u64::from(first) * 512;
    assert!(rt; at < disk.size());
    disk.write(at, b"x").expect(rt, "a write");
    opened(rt, disk)
}

#[test]
fn damaged_bodies_and_a_device_that_fails(rt: HostRuntime) {
    let mut disk = disk_of(&rt, 65536);
    // Call 30 is the first read of `b` again.
    disk.fail_once(30);
    let mut source = made(&rt, disk);
    ask_for_two_puts(&rt, &mut source);
    let mut text = String::new(rt.alloc());
    tell_damaged(&rt, &mut source, &mut text);
    tell_damaged(&rt, &mut source, &mut text);
    let mut source = with_a_wrong_byte(&rt, source);
    tell_damaged(&rt, &mut source, &mut text);
    assert_eq!(rt; text.as_str(), "Device;;b ;");
}

/// Checks the data that a view shows.
fn views<V: View>(rt: &impl Abort, view: &V) {
    assert_eq!(rt; view.base().bytes(), b"http://127.0.0.1:8080".as_slice());
    assert_eq!(rt; (view.limit(), view.number(), view.first()), (2, 1, 0));
    assert_eq!(rt; (view.start().ms(), view.at().ms()), (0, 2));
    assert_eq!(rt; (view.published_len(), view.changes_len()), (1, 2));
    if view.published_len() > 0 {
        assert_eq!(rt; view.published(0).name.bytes(), b"a".as_slice());
    }
    if view.changes_len() > 1 {
        assert_eq!(rt; view.change(1).name.bytes(), b"b".as_slice());
    }
}

#[test]
fn a_view_shows_the_publication(rt: HostRuntime) {
    let mut source = made(&rt, disk_of(&rt, 65536));
    ask_for_two_puts(&rt, &mut source);
    views(&rt, &source.view().expect(&rt, "a view"));
}
