//! Copies of a source to another disk: stopped at every call, to disks that are too small, of a source that cannot be
//! read, and of a damaged body.

use super::asking::Asked::{self, Delete, Publish, Put};
use super::asking::{ask, disk_of, made, opened, told};
use rs_disk::{Disk, MemoryDisk};
use rs_store::CopyFault::{self, Damaged, Device, Full, TooSmall};
use rs_store::{CopyRefusal, OpenFault, Source};
use std::process::Abort;

// Commands that leave one held resource, and one published resource that was deleted since.
const FILLING: [Asked; 4] = [Put(b"a", b"one"), Publish, Put(b"b", b"two"), Delete(b"a")];

/// Returns a source with one held resource, and one published resource that was deleted since.
fn filled(rt: &(impl Abort + AllocGlobal)) -> Source<MemoryDisk> {
    let mut source = made(rt, disk_of(rt, 65536));
    for asked in &FILLING {
        let _answer = ask(rt, &mut source, *asked);
    }
    source
}

/// Returns a copy of a source. The copy has to succeed.
fn copied(
    rt: &(impl Abort + AllocGlobal),
    source: &mut Source<MemoryDisk>,
    disk: MemoryDisk,
) -> Source<MemoryDisk> {
    match source.copy_to(disk) {
        Ok(copy) => copy,
        Err((_, fault)) => panic!(rt; "not copied: {fault}"),
    }
}

/// Returns the reason why a source is not copied, and the disk.
fn refused(
    rt: &(impl Abort + AllocGlobal),
    source: &mut Source<MemoryDisk>,
    disk: MemoryDisk,
) -> (MemoryDisk, CopyFault) {
    match source.copy_to(disk) {
        Ok(_) => panic!(rt; "copied"),
        Err((disk, refusal)) => match refusal {
            CopyRefusal::Closed => panic!(rt; "closed"),
            CopyRefusal::Fault(fault) => (disk, fault),
        },
    }
}

// The choices that make images.
const CHOICES: [&[u8]; 4] = [&[], &[0], &[1], &[0, 1]];

/// Returns the content of the source on a disk, or the reason why there is no source.
fn told_by(rt: &(impl Abort + AllocGlobal), disk: MemoryDisk) -> Result<String, OpenFault> {
    match Source::open(rt.alloc(), disk) {
        Ok(mut source) => Ok(told(rt, &mut source)),
        Err((_disk, fault)) => Err(fault),
    }
}

/// Checks that an image that a choice made has this text, or holds no source.
fn is_told(rt: &impl Abort, text: &Result<String, OpenFault>, want: &str, choice: &[u8]) {
    match text {
        Ok(text) => assert_eq!(rt; text.as_str(), want, "{choice:?}"),
        Err(fault) => assert_eq!(rt; *fault, OpenFault::NotASource, "{choice:?}"),
    }
}

/// Checks that all of these images of a disk hold a source with this content, or no source.
fn images_tell(rt: &(impl Abort + AllocGlobal), disk: &MemoryDisk, want: &str) {
    for choice in &CHOICES {
        let image = disk.image(choice).expect(rt, "memory for an image");
        let disk = MemoryDisk::from_bytes(rt.alloc(), &image).expect(rt, "memory for a disk");
        is_told(rt, &told_by(rt, disk), want, choice);
    }
}

// Two gates and a sync; a body, a page of every list and the directory; the root, a sync, its gate, a sync.
const CALLS: u64 = 12;

#[test]
fn a_copy_is_whole_or_none(rt: HostRuntime) {
    let mut source = filled(&rt);
    let want = told(&rt, &mut source);
    assert_eq!(rt;
        want.as_str(),
        "held: b=two; changes: Created a Created b Deleted a; published 1: a"
    );
    for k in 0..CALLS {
        let mut disk = disk_of(&rt, 32768);
        disk.stop_after(k);
        let (disk, fault) = refused(&rt, &mut source, disk);
        assert_eq!(rt; (fault, disk.calls()), (Device, k + 1), "after {k} calls");
        images_tell(&rt, &disk, want.as_str());
    }
    let mut copy = copied(&rt, &mut source, disk_of(&rt, 32768));
    assert_eq!(rt; told(&rt, &mut copy).as_str(), want.as_str());
    let disk = copy.into_disk();
    assert_eq!(rt; disk.calls(), CALLS + 1, "with the read of a body");
    let mut copy = opened(&rt, disk);
    assert_eq!(rt; told(&rt, &mut copy).as_str(), want.as_str());
    assert_eq!(rt; told(&rt, &mut source).as_str(), want.as_str());
}

/// Returns the bytes of a disk that holds another source.
fn other_source(rt: &(impl Abort + AllocGlobal)) -> Vec<u8> {
    let mut other = made(rt, disk_of(rt, 32768));
    let _answer = ask(rt, &mut other, Put(b"other", b"three"));
    let disk = other.into_disk();
    disk.image(&[]).expect(rt, "memory for an image")
}

/// Checks that these bytes equal others of their number, except for bytes 0 and 512, the gates of the slots.
fn are_as_before(rt: &impl Abort, bytes: &[u8], before: &[u8], calls: u64) {
    assert_eq!(rt; bytes.len(), before.len());
    for at in 0..bytes.len() {
        let is_gate = at == 0 || at == 512;
        assert!(rt;
            is_gate || bytes[at] == before[at],
            "byte {at} after {calls} calls"
        );
    }
}

/// Checks every image of a disk: it is unchanged except for the gates; or, once the third call has settled them, it
/// holds no source or the copy.
fn images_are_as_before_or_tell(
    rt: &(impl Abort + AllocGlobal),
    disk: &MemoryDisk,
    before: &[u8],
    want: &str,
    calls: u64,
) {
    if calls >= 3 {
        images_tell(rt, disk, want);
        return;
    }
    for choice in &CHOICES {
        let image = disk.image(choice).expect(rt, "memory for an image");
        are_as_before(rt, &image, before, calls);
    }
}

#[test]
fn what_a_disk_held_before_shows_unchanged_or_no_more(rt: HostRuntime) {
    let mut source = filled(&rt);
    let want = told(&rt, &mut source);
    let before = other_source(&rt);
    for k in 0..CALLS {
        let mut disk = MemoryDisk::from_bytes(rt.alloc(), &before).expect(&rt, "memory for a disk");
        disk.stop_after(k);
        let (disk, _fault) = refused(&rt, &mut source, disk);
        images_are_as_before_or_tell(&rt, &disk, &before, want.as_str(), k);
    }
}

const BODY: [u8; 5633] = [7; 5633];

// The number of bytes of a disk, and the reason why a source with a body of 5,633 bytes is not copied to it.
const SMALL: [(u64, CopyFault); 3] = [(0, TooSmall), (8191, TooSmall), (8192, Full)];

/// Returns the reason why a source is not copied to a disk of this size, and the number of calls of that disk.
fn fault_and_calls(
    rt: &(impl Abort + AllocGlobal),
    source: &mut Source<MemoryDisk>,
    size: u64,
) -> (CopyFault, u64) {
    let (disk, fault) = refused(rt, source, disk_of(rt, size));
    (fault, disk.calls())
}

/// Checks that a source is not copied to small disks.
fn is_not_copied(rt: &(impl Abort + AllocGlobal), source: &mut Source<MemoryDisk>) {
    for (size, want) in &SMALL {
        assert_eq!(rt;
            fault_and_calls(rt, source, *size),
            (*want, 0),
            "{size} bytes"
        );
    }
}

/// Checks that a source holds one resource.
fn holds_one(rt: &(impl Abort + AllocGlobal), source: &Source<MemoryDisk>) {
    assert_eq!(rt; source.status().expect(rt, "a status").resources, 1);
}

#[test]
fn a_disk_is_too_small_for_a_copy(rt: HostRuntime) {
    let mut source = opened(&rt, disk_with_a_body(&rt));
    is_not_copied(&rt, &mut source);
    holds_one(&rt, &copied(&rt, &mut source, disk_of(&rt, 8704)));
}

/// Damages a body that begins at this byte of a disk.
fn damage(rt: &impl Abort, disk: &mut MemoryDisk, at: u16) {
    let at = at as u64;
    assert!(rt; at + 3 <= disk.size());
    disk.write(at, b"TWO").expect(rt, "a write");
}

/// Checks that this is the fault of a damaged body.
fn is_damage(rt: &impl Abort, fault: CopyFault) {
    assert_eq!(rt; fault, Damaged);
}

#[test]
fn a_damaged_body_is_not_copied(rt: HostRuntime) {
    let mut disk = filled(&rt).into_disk();
    damage(&rt, &mut disk, 3_072);
    let mut source = opened(&rt, disk);
    let (disk, fault) = refused(&rt, &mut source, disk_of(&rt, 32768));
    is_damage(&rt, fault);
    images_tell(&rt, &disk, "nothing");
}

/// Returns the disk of a source with a body of 5,633 bytes. The body follows the directory that was made with it: it
/// begins at block 3.
fn disk_with_a_body(rt: &(impl Abort + AllocGlobal)) -> MemoryDisk {
    let mut source = made(rt, disk_of(rt, 16384));
    let _answer = ask(rt, &mut source, Put(b"a", &BODY));
    source.into_disk()
}

/// Checks that a source is not copied to 16 blocks for lack of room, and not to 17 blocks because of this fault. A call
/// of the new disk would fail in the first copy.
fn room_comes_first(
    rt: &(impl Abort + AllocGlobal),
    source: &mut Source<MemoryDisk>,
    want: CopyFault,
) {
    let mut small = disk_of(rt, 8192);
    small.stop_after(0);
    let (small, fault) = refused(rt, source, small);
    assert_eq!(rt; (fault, small.calls()), (Full, 0));
    let (_disk, fault) = refused(rt, source, disk_of(rt, 8704));
    assert_eq!(rt; fault, want);
}

#[test]
fn want_of_room_comes_before_a_fault_of_a_device(rt: HostRuntime) {
    let mut disk = disk_with_a_body(&rt);
    // An opening makes six calls: a sync, and reads of two slots, the directory and two pages.
    disk.fail_once(6);
    let mut source = opened(&rt, disk);
    room_comes_first(&rt, &mut source, Device);
}

#[test]
fn want_of_room_comes_before_damage(rt: HostRuntime) {
    let mut disk = disk_with_a_body(&rt);
    damage(&rt, &mut disk, 1_536);
    let mut source = opened(&rt, disk);
    room_comes_first(&rt, &mut source, Damaged);
}
