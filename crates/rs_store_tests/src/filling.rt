//! Commands on a disk that has exactly the blocks that the commands take.

use super::asking::Answer::{Created, Deleted, Refused};
use super::asking::Asked::{Delete, Put};
use super::asking::{ask, disk_of, made, tells};
use rs_disk::MemoryDisk;
use rs_store::Refusal::Full;
use rs_store::Source;
use std::process::Abort;

const BODY: [u8; 4608] = [7; 4608];

/// Fills 14 of a source's 16 blocks: the slots take two, the body of `a` nine, and the catalogue's page, the changes'
/// page and the directory take one block per item. Then deletes that resource.
fn fill_and_delete(rt: &(impl Abort + AllocGlobal), source: &mut Source<MemoryDisk>) {
    assert_eq!(rt; ask(rt, source, Put(b"a", &BODY)), Created(1));
    // Two pages and the directory would take three blocks.
    assert_eq!(rt; ask(rt, source, Put(b"b", b"")), Refused(Full));
    // The catalogue has no page then, so one page and the directory take two.
    assert_eq!(rt; ask(rt, source, Delete(b"a")), Deleted(2));
}

#[test]
fn the_last_resource_is_deleted_on_two_free_blocks(rt: HostRuntime) {
    let mut source = made(&rt, disk_of(&rt, 8192));
    fill_and_delete(&rt, &mut source);
    tells(
        &rt,
        &mut source,
        "held:; changes: Created a Deleted a; published 0:",
    );
}
