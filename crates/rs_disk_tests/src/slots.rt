//! Slots spelled by hand from the table of their bytes, and commits stopped at every device call.

use crate::images::image_is;
use rs_commit::{CommitFault, Root, SlotFault, Slots, format_slots, open_slots};
use rs_disk::{Disk, MemoryDisk};
use rs_extent::Extent;
use std::alloc::Global;
use std::process::Abort;
use std::test::Fail;

const OLD: Root = Root {
    version: 2,
    generation: 4,
    directory: Extent {
        first: 2,
        blocks: 1,
    },
    length: 9,
    sha256: [7; 32],
};

const NEXT: Root = Root {
    version: 2,
    generation: 5,
    directory: Extent {
        first: 3,
        blocks: 2,
    },
    length: 513,
    sha256: [8; 32],
};

const THIRD: Root = Root {
    version: 2,
    generation: 6,
    directory: Extent {
        first: 70000,
        blocks: 1,
    },
    length: 1,
    sha256: [9; 32],
};

/// `NEXT` in an open slot: gate, version, generation (8), first block (4), number of blocks (4) and length of the
/// directory (4). Its SHA-256 follows.
const NEXT_FIELDS: [u8; 22] = [
    1, 2, 0, 0, 0, 0, 0, 0, 0, 5, 0, 0, 0, 3, 0, 0, 0, 2, 0, 0, 2, 1,
];

/// Returns the first 54 bytes of a slot, whose SHA-256 is 32 times one byte.
fn slot(fields: [u8; 22], sha256: u8) -> [u8; 54] {
    let mut bytes = [sha256; 54];
    bytes[..22].copy_from_slice(&fields);
    bytes
}

/// The gate, the version and the last byte of the generation of a slot.
type Front = (u8, u8, u8);

const CLOSED: Front = (0, 2, 9);

const FOUR: Front = (1, 2, 4);

const FIVE: Front = (1, 2, 5);

const FOUR_OF_VERSION_ONE: Front = (1, 1, 4);

const FIVE_OF_VERSION_ONE: Front = (1, 1, 5);

const UNKNOWN: Front = (1, 9, 4);

/// Returns a slot with the root `OLD`, of another generation.
fn old_slot((gate, version, generation): Front) -> [u8; 54] {
    let fields = [
        gate, version, 0, 0, 0, 0, 0, 0, 0, generation, 0, 0, 0, 2, 0, 0, 0, 1, 0, 0, 0, 9,
    ];
    slot(fields, 7)
}

/// Returns a slot's block: these bytes, and zeros.
fn block(front: &[u8; 54]) -> [u8; 512] {
    let mut bytes = [0; 512];
    bytes[..54].copy_from_slice(front);
    bytes
}

/// Returns both slots, and 16 bytes after them.
fn with_slots(first: &[u8; 54], second: &[u8; 54]) -> [u8; 1040] {
    let mut bytes = [0xEE; 1040];
    bytes[..512].copy_from_slice(&block(first));
    bytes[512..1024].copy_from_slice(&block(second));
    bytes
}

/// Returns the root of the disk, by its slots.
fn root_of(disk: &mut MemoryDisk) -> Result<Root, SlotFault> {
    open_slots(disk).map(|(_, root)| root)
}

/// The number of bytes of a disk, its slots, and the version and the generation of its root.
type Row = (usize, Front, Front, Result<(u8, u64), SlotFault>);

const ROWS: [Row; 23] = [
    (1024, CLOSED, CLOSED, Err(SlotFault::NotASource)),
    (1024, FOUR, CLOSED, Ok((2, 4))),
    (1024, CLOSED, FOUR, Ok((2, 4))),
    (1024, FOUR, FIVE, Ok((2, 5))),
    (1024, FIVE, FOUR, Ok((2, 5))),
    (1024, FOUR, FOUR, Err(SlotFault::NotASource)),
    (1024, UNKNOWN, CLOSED, Err(SlotFault::NotASource)),
    (1024, CLOSED, UNKNOWN, Err(SlotFault::NotASource)),
    (1024, UNKNOWN, FIVE, Err(SlotFault::NotASource)),
    (1024, FIVE, UNKNOWN, Err(SlotFault::NotASource)),
    (1024, (0, 9, 6), FIVE, Ok((2, 5))),
    (1024, (2, 2, 6), FIVE, Ok((2, 5))),
    (1024, (2, 2, 6), (255, 2, 5), Err(SlotFault::NotASource)),
    (512, FOUR, FIVE, Ok((2, 4))),
    (1023, FOUR, FIVE, Ok((2, 4))),
    (511, FOUR, FIVE, Err(SlotFault::NotASource)),
    (1024, FOUR_OF_VERSION_ONE, CLOSED, Ok((1, 4))),
    (1024, FOUR_OF_VERSION_ONE, FIVE, Ok((2, 5))),
    (1024, FOUR, FIVE_OF_VERSION_ONE, Ok((1, 5))),
    (1024, FOUR_OF_VERSION_ONE, FOUR, Err(SlotFault::NotASource)),
    (1024, (1, 3, 4), CLOSED, Err(SlotFault::NotASource)),
    (1024, FOUR, (1, 3, 5), Err(SlotFault::NotASource)),
    (1024, (1, 0, 4), CLOSED, Err(SlotFault::NotASource)),
];

/// Returns the version and the generation of the root of a disk with these slots.
fn generation_of(alloc: Global, row: &Row) -> Result<Result<(u8, u64), SlotFault>, Fail> {
    let bytes = with_slots(&old_slot(row.1), &old_slot(row.2));
    let mut disk = MemoryDisk::from_bytes(alloc, &bytes[..row.0.min(1040)])?;
    Ok(root_of(&mut disk).map(|root| (root.version, root.generation)))
}

#[test]
fn the_rule_of_the_slots(rt: HostRuntime) -> Result<(), Fail> {
    for row in &ROWS {
        assert_eq!(rt; generation_of(rt.alloc(), row)?, row.3, "{row:?}");
    }
    Ok(())
}

/// Commits a root to a disk of 1,024 bytes at least.
fn commit(
    rt: &impl Abort,
    disk: &mut MemoryDisk,
    slots: &mut Slots,
    root: &Root,
) -> Result<(), CommitFault> {
    assert!(rt; disk.size() >= 1024);
    slots.commit(disk, root.directory, root.length, &root.sha256)
}

/// Makes the slots of a disk of 1,024 bytes at least, with this root of version 2.
fn made(rt: &impl Abort, disk: &mut MemoryDisk, root: &Root) -> Slots {
    assert!(rt; disk.size() >= 1024);
    assert!(rt; root.version == 2);
    format_slots(disk, root).expect(rt, "no call fails")
}

/// Commits a root in this many calls, and finds it again.
fn commit_in(rt: &impl Abort, disk: &mut MemoryDisk, slots: &mut Slots, root: &Root, calls: u64) {
    let before = disk.calls();
    assert_eq!(rt; commit(rt, disk, slots, root), Ok(()));
    assert_eq!(rt; disk.calls().wrapping_sub(before), calls, "{root:?}");
    assert_eq!(rt; slots.root(), *root);
    assert_eq!(rt; root_of(disk), Ok(*root));
}

/// Returns whether these are the bytes of the disk, all of them settled.
fn rests(disk: &MemoryDisk, bytes: &[u8]) -> bool {
    image_is(disk, &[], bytes) && image_is(disk, &[9], bytes)
}

/// Makes the slots, and changes the root three times. The spare of new slots is closed already; after the first commit
/// it is open.
fn change_roots(rt: &impl Abort, disk: &mut MemoryDisk) {
    let mut slots = made(rt, disk, &OLD);
    assert_eq!(rt; slots.root(), OLD);
    assert_eq!(rt; disk.calls(), 5);
    let mut closed = [0; 54];
    closed[1] = 2;
    assert!(rt; rests(disk, &with_slots(&old_slot(FOUR), &closed)));
    commit_in(rt, disk, &mut slots, &NEXT, 4);
    assert!(rt; rests(disk, &with_slots(&old_slot(FOUR), &slot(NEXT_FIELDS, 8))));
    commit_in(rt, disk, &mut slots, &THIRD, 6);
    let fourth = Root {
        generation: 7,
        ..NEXT
    };
    commit_in(rt, disk, &mut slots, &fourth, 6);
}

#[test]
fn roots_follow_each_other(rt: HostRuntime) -> Result<(), Fail> {
    let mut disk = MemoryDisk::from_bytes(rt.alloc(), &[0xEE; 1040])?;
    change_roots(&rt, &mut disk);
    Ok(())
}

/// Changes a root of version 1. The new one has version 2, and the old one stays as it was.
fn change_version_one(rt: &impl Abort, disk: &mut MemoryDisk) {
    let (mut slots, root) = open_slots(disk).expect(rt, "a root");
    assert_eq!(rt; root, Root { version: 1, ..OLD });
    commit_in(rt, disk, &mut slots, &NEXT, 4);
    let slots = with_slots(&old_slot(FOUR_OF_VERSION_ONE), &slot(NEXT_FIELDS, 8));
    assert!(rt; rests(disk, &slots));
}

#[test]
fn a_commit_brings_version_two(rt: HostRuntime) -> Result<(), Fail> {
    let bytes = with_slots(&old_slot(FOUR_OF_VERSION_ONE), &old_slot(CLOSED));
    let mut disk = MemoryDisk::from_bytes(rt.alloc(), &bytes)?;
    change_version_one(&rt, &mut disk);
    Ok(())
}

/// Returns the root that an image of the disk opens to.
fn root_of_image(rt: &(impl Abort + AllocGlobal), disk: &MemoryDisk, choice: &[u8]) -> Root {
    let image = disk.image(choice).expect(rt, "memory");
    let mut crashed = MemoryDisk::from_bytes(rt.alloc(), &image).expect(rt, "memory");
    root_of(&mut crashed).expect(rt, "a root")
}

/// A commit: the root before it, the root after it, and the number of its device calls.
type Change = (Root, Root, u64);

/// Slots that a commit changes next. Their spare is closed, or open after an earlier commit.
fn begun(rt: &impl Abort, disk: &mut MemoryDisk, spare_open: bool) -> (Slots, Change) {
    let mut slots = made(rt, disk, &OLD);
    if spare_open {
        commit_in(rt, disk, &mut slots, &NEXT, 4);
        (slots, (NEXT, THIRD, 6))
    } else {
        (slots, (OLD, NEXT, 4))
    }
}

/// Settles the disk, opens it, and commits once more. Returns the root that it found.
fn opened_again(rt: &impl Abort, disk: &mut MemoryDisk) -> Root {
    disk.fail_once(99);
    assert!(rt; disk.sync().is_ok());
    let (mut slots, root) = open_slots(disk).expect(rt, "a root");
    assert_eq!(rt; commit(rt, disk, &mut slots, &root), Ok(()));
    root
}

/// Commits on a disk that stops after `k` calls, or fails one call after them. Every image opens to the root before or
/// to the root after, and once the commit has succeeded, to the root after.
fn stop_commit(
    rt: &(impl Abort + AllocGlobal),
    disk: &mut MemoryDisk,
    spare_open: bool,
    k: u64,
    once: bool,
) {
    let (mut slots, (old, next, calls)) = begun(rt, disk, spare_open);
    if once {
        disk.fail_once(k);
    } else {
        disk.stop_after(k);
    }
    let done = commit(rt, disk, &mut slots, &next).is_ok();
    assert_eq!(rt; done, k >= calls, "call {k}");
    for choice in [[0].as_slice(), &[1], &[0, 1]] {
        let root = root_of_image(rt, disk, choice);
        assert!(rt;
            root == next || (root == old && !done),
            "call {k}: {root:?}"
        );
    }
    let root = opened_again(rt, disk);
    assert!(rt;
        root == next || (root == old && !done),
        "call {k}: {root:?}"
    );
}

/// Stops a commit at every one of its device calls.
fn stop_each(rt: &(impl Abort + AllocGlobal), spare_open: bool, once: bool) {
    for k in 0..7 {
        let mut disk = MemoryDisk::new(rt.alloc(), 1024).expect(rt, "memory");
        stop_commit(rt, &mut disk, spare_open, k, once);
    }
}

#[test]
fn a_commit_stopped_at_each_call(rt: HostRuntime) {
    stop_each(&rt, false, false);
    stop_each(&rt, false, true);
    stop_each(&rt, true, false);
    stop_each(&rt, true, true);
}

/// Makes slots of the last generation, and commits to them.
fn exhaust(rt: &impl Abort, disk: &mut MemoryDisk) {
    let last = Root {
        generation: 18_446_744_073_709_551_615,
        ..OLD
    };
    let mut slots = made(rt, disk, &last);
    let before = disk.image(&[]).expect(rt, "memory");
    let calls = disk.calls();
    assert_eq!(rt;
        commit(rt, disk, &mut slots, &NEXT),
        Err(CommitFault::Exhausted)
    );
    assert_eq!(rt; disk.calls(), calls);
    assert!(rt; rests(disk, &before));
    assert_eq!(rt; slots.root(), last);
    assert_eq!(rt; root_of(disk), Ok(last));
}

#[test]
fn no_generation_is_left(rt: HostRuntime) -> Result<(), Fail> {
    let mut disk = MemoryDisk::new(rt.alloc(), 1024)?;
    exhaust(&rt, &mut disk);
    Ok(())
}
