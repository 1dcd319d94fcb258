//! Calls that no program makes, and that need more than a line of a script: one run of many commands, and copies of the
//! lists that many commands leave. The copies have room for exactly the items that they hold.

use super::asking::{disk_of, made, named, plain};
use rs_disk::MemoryDisk;
use rs_model::{Body, Command, Item};
use rs_store::{Refusal, Source};
use rs_time::Moment;
use std::process::Abort;

/// The number of commands of one run.
const COMMANDS: usize = 1_001;

/// The number of groups, and the number of items of a group.
const GROUPS: usize = 63;

const ITEMS: usize = 16;

/// Returns deletions, all at the first moment, of a name that is not held.
fn many_commands(rt: &(impl Abort + AllocGlobal)) -> Vec<(Command, Moment)> {
    let mut commands = Vec::new(rt.alloc());
    for _ in 0..COMMANDS {
        let deletion = Command::Delete {
            name: named(rt, b"a"),
        };
        commands
            .push((deletion, Moment::first()))
            .expect(rt, "memory");
    }
    commands
}

#[test]
fn many_commands_are_answered_in_one_run(rt: HostRuntime) {
    let mut source = made(&rt, disk_of(&rt, 65_536));
    let acks = source.run(&many_commands(&rt)).expect(&rt, "answers");
    assert_eq!(rt; acks.len(), COMMANDS);
    for ack in &acks {
        assert!(rt; matches!(ack.reply, Err(Refusal::NotHeld)));
    }
}

/// Returns puts of `a` with no bytes, as many as a group has.
fn items(rt: &(impl Abort + AllocGlobal)) -> Vec<Item> {
    let mut items = Vec::new(rt.alloc());
    for _ in 0..ITEMS {
        let put = Item::Put {
            name: named(rt, b"a"),
            kind: plain(rt),
            bytes: Body::new(Vec::new(rt.alloc())),
        };
        items.push(put).expect(rt, "memory");
    }
    items
}

/// Does this number of groups.
fn do_groups(rt: &(impl Abort + AllocGlobal), source: &mut Source<MemoryDisk>) {
    let items = items(rt);
    for _ in 0..GROUPS {
        let _ = source
            .group(&items, Moment::first())
            .expect(rt, "an answer");
    }
}

#[test]
fn many_changes_are_copied(rt: HostRuntime) {
    let mut source = made(&rt, disk_of(&rt, 1_048_576));
    do_groups(&rt, &mut source);
    let changes = source.changes().expect(&rt, "changes");
    assert_eq!(rt; changes.len(), GROUPS * ITEMS);
    assert_eq!(rt; changes.capacity(), GROUPS * ITEMS);
    let records = source.records().expect(&rt, "records");
    assert_eq!(rt; (records.len(), records.capacity()), (1, 1));
}
