//! A source whose device failed in a command refuses all requests until its disk is opened again.

use super::asking::Answer::Refused;
use super::asking::Asked::{self, Delete, Publish, Put, Receive};
use super::asking::{ask, disk_of, made, named};
use rs_disk::MemoryDisk;
use rs_store::Refusal::{self, Closed, Device};
use rs_store::Source;
use std::process::Abort;

/// Checks that this is the answer of a closed source.
fn is_closed<T: Drop>(rt: &impl Abort, answer: Result<T, Refusal>) {
    let refusal = answer.err();
    assert_eq!(rt; refusal, Some(Closed));
    assert_eq!(rt; refusal.map(|it| it.word()), Some("Closed"));
}

// Commands to a closed source.
const COMMANDS: [Asked; 5] = [
    Put(b"a", b"one"),
    Receive(b"a", b"one"),
    Delete(b"a"),
    Delete(b"z"),
    Publish,
];

/// Checks that a source refuses all requests.
fn answers_nothing(rt: &(impl Abort + AllocGlobal), source: &mut Source<MemoryDisk>) {
    assert!(rt; source.is_closed());
    for asked in &COMMANDS {
        assert_eq!(rt; ask(rt, source, *asked), Refused(Closed), "{asked:?}");
    }
    let name = named(rt, b"a");
    is_closed(rt, source.body(&name));
    is_closed(rt, source.kind(&name));
    is_closed(rt, source.records());
    is_closed(rt, source.published());
    is_closed(rt, source.changes());
    is_closed(rt, source.status());
    is_closed(rt, source.view());
}

#[test]
fn a_closed_source_answers_nothing(rt: HostRuntime) {
    let mut disk = disk_of(&rt, 65536);
    // The formatting makes six calls. The next call fails, and the device works again after it, but the source stays
    // closed.
    disk.fail_once(6);
    let mut source = made(&rt, disk);
    assert!(rt; !source.is_closed());
    assert_eq!(rt; ask(&rt, &mut source, Publish), Refused(Device));
    answers_nothing(&rt, &mut source);
}
