//! Pages on a device that fails, and references that no device is asked for.

use crate::values::{SHA256_OF_NOTHING, deletion};
use rs_body::{LoadFault, is_on_disk};
use rs_disk::{Disk, MemoryDisk};
use rs_extent::{Extent, Used};
use rs_page::{Page, PageItem, PageRef, Place, StoreFault};
use rs_record::Change;
use std::process::Abort;
use std::test::Fail;

// 2000-01-01T00:00:00.000Z, in milliseconds.
const MOMENT: u64 = 946_684_800_000;

// The SHA-256 of the page of docs/DISK.md, the deletions of `a/b` at that moment and of `c` a
// millisecond later, by Python's `hashlib`.
const SHA256: [u8; 32] = [
    0x70, 0x2b, 0xb6, 0xb9, 0x95, 0x84, 0x7c, 0x97, 0xc0, 0x88, 0x16, 0x70, 0x3c, 0x30, 0xb8, 0x32,
    0x80, 0x5e, 0x5e, 0x86, 0x8c, 0xdd, 0x68, 0x8f, 0x50, 0xd5, 0x83, 0x7e, 0x41, 0xd7, 0x2b, 0xe0,
];

// That page in the lowest free block.
const AT: PageRef = PageRef {
    extent: Extent {
        first: 2,
        blocks: 1,
    },
    length: 29,
    sha256: SHA256,
};

/// Returns the deletions of `a/x` and of `c`.
fn deletions(rt: &impl AllocGlobal) -> Result<Vec<Change>, Fail> {
    let mut items = Vec::new(rt.alloc());
    items.push(deletion(rt, b"a/x", MOMENT)?)?;
    items.push(deletion(rt, b"c", MOMENT + 1)?)?;
    Ok(items)
}

/// Replaces the first change by one whose format is as long.
fn replace_first(rt: &impl Abort, page: &mut Page<Change>, change: Change) {
    assert!(rt; !matches!(page.place(), Place::Stored(_)));
    let Some(first) = page.items().first() else {
        panic!(rt; "a page has items");
    };
    assert_eq!(rt; first.size(), change.size());
    page.replace(0, change);
}

/// Stores a page that was given blocks of the disk.
pub(super) fn store(
    rt: &(impl Abort + AllocGlobal),
    page: &mut Page<Change>,
    disk: &mut MemoryDisk,
) -> Result<(), StoreFault> {
    let extent = match page.place() {
        Place::Placed(extent) => extent,
        Place::Touched | Place::Stored(_) => panic!(rt; "the page has no blocks"),
    };
    assert!(rt; is_on_disk(extent, disk.size()));
    page.store(rt.alloc(), disk)
}

/// Returns the fault of loading a page of changes from there, if it fails.
fn fault_of(rt: &impl AllocGlobal, disk: &mut MemoryDisk, at: &PageRef) -> Option<LoadFault> {
    let read: Result<Page<Change>, LoadFault> = Page::load(rt.alloc(), disk, at);
    read.err()
}

/// Stores a page whose first write fails, and loads it, where the first read fails.
fn outlives_faults(
    rt: &(impl Abort + AllocGlobal),
    page: &mut Page<Change>,
    disk: &mut MemoryDisk,
) {
    disk.fail_once(0);
    assert_eq!(rt; store(rt, page, disk), Err(StoreFault::Device));
    assert_eq!(rt; page.place(), Place::Placed(AT.extent));
    assert_eq!(rt; fault_of(rt, disk, &AT), Some(LoadFault::Damaged));
    assert_eq!(rt; store(rt, page, disk), Ok(()));
    assert_eq!(rt; page.place(), Place::Stored(AT));
    disk.fail_once(0);
    assert_eq!(rt; fault_of(rt, disk, &AT), Some(LoadFault::Device));
    assert_eq!(rt; fault_of(rt, disk, &AT), None);
}

#[test]
fn a_page_is_stored_again_after_a_fault(rt: HostRuntime) -> Result<(), Fail> {
    let items = deletions(&rt)?;
    assert!(rt; items.len() == 2);
    let mut page = Page::new(items);
    let change = deletion(&rt, b"a/b", MOMENT)?;
    replace_first(&rt, &mut page, change);
    let mut used = Used::new(rt.alloc(), 4)?;
    page.place_in(&mut used)?;
    let mut disk = MemoryDisk::new(rt.alloc(), 2048)?;
    outlives_faults(&rt, &mut page, &mut disk);
    Ok(())
}

// First block, blocks, length and SHA-256 of a reference on a disk of four blocks of zeros, and
// whether the device is asked before the page is found damaged.
const REFERENCES: [(u32, u32, u32, [u8; 32], bool); 13] = [
    (2, 1, 29, SHA256, true),
    (3, 1, 512, SHA256, true),
    (3, 0, 29, SHA256, false),
    (3, 2, 29, SHA256, false),
    (3, 1, 513, SHA256, false),
    (3, 2, 513, SHA256, false),
    (4, 1, 29, SHA256, false),
    (u32::MAX, 1, 29, SHA256, false),
    (u32::MAX, u32::MAX, u32::MAX, SHA256, false),
    (3, 8_388_608, u32::MAX, SHA256, false),
    (3, 0, 0, SHA256_OF_NOTHING, false),
    (0, 0, 0, SHA256_OF_NOTHING, false),
    (u32::MAX, 0, 0, SHA256_OF_NOTHING, false),
];

/// Returns whether the device is asked for a page that it doesn't hold.
fn asks(rt: &(impl Abort + AllocGlobal), disk: &mut MemoryDisk, at: &PageRef) -> bool {
    let calls = disk.calls();
    assert_eq!(rt; fault_of(rt, disk, at), Some(LoadFault::Damaged), "{at:?}");
    disk.calls() != calls
}

#[test]
fn no_device_is_asked_for_blocks_that_it_has_not(rt: HostRuntime) -> Result<(), Fail> {
    let mut disk = MemoryDisk::new(rt.alloc(), 2048)?;
    for (first, blocks, length, sha256, want) in REFERENCES {
        let extent = Extent { first, blocks };
        let at = PageRef {
            extent,
            length,
            sha256,
        };
        assert_eq!(rt; asks(&rt, &mut disk, &at), want, "{at:?}");
    }
    Ok(())
}
