//! Devices that fail one call while a source is made or opened.

use super::asking::{ask_for_two_puts, disk_of, made};
use rs_disk::MemoryDisk;
use rs_store::{FormatFault, OpenFault, Source};
use rs_time::Moment;
use std::process::Abort;

/// Returns the answer of a formatting whose device fails one call, after `k` other calls.
fn fault_of_formatting(rt: &(impl Abort + AllocGlobal), k: u64) -> Option<FormatFault> {
    let mut disk = disk_of(rt, 8192);
    disk.fail_once(k);
    match Source::format(rt.alloc(), disk, b"http://a", 2, Moment::first()) {
        Ok(_) => None,
        Err((_, fault)) => Some(fault),
    }
}

#[test]
fn a_device_that_fails_in_a_formatting(rt: HostRuntime) {
    // It makes six calls.
    for k in 0..7 {
        let want = if k < 6 {
            Some(FormatFault::Device)
        } else {
            None
        };
        assert_eq!(rt; fault_of_formatting(&rt, k), want, "after {k} calls");
    }
}

/// Returns the bytes of a disk with a page of every list.
fn image_of_three_pages(rt: &(impl Abort + AllocGlobal)) -> Vec<u8> {
    let mut source = made(rt, disk_of(rt, 65536));
    ask_for_two_puts(rt, &mut source);
    let disk = source.into_disk();
    disk.image(&[]).expect(rt, "memory for an image")
}

/// Returns the answer of an opening whose device fails one call, after `k` other calls, and the disk.
fn fault_of_opening(
    rt: &impl AllocGlobal,
    disk: MemoryDisk,
    k: u64,
) -> (Option<OpenFault>, MemoryDisk) {
    let mut disk = disk;
    disk.fail_once(k);
    match Source::open(rt.alloc(), disk) {
        Ok(source) => (None, source.into_disk()),
        Err((disk, fault)) => (Some(fault), disk),
    }
}

/// Fails one call of an opening, after `k` other calls. Checks the answer, and that the disk keeps its bytes.
fn fail(rt: &(impl Abort + AllocGlobal), image: &[u8], k: u64) {
    let disk = MemoryDisk::from_bytes(rt.alloc(), image).expect(rt, "memory for a disk");
    let (fault, disk) = fault_of_opening(rt, disk, k);
    let want = if k < 7 { Some(OpenFault::Device) } else { None };
    assert_eq!(rt; fault, want, "after {k} calls");
    let left = disk.image(&[]).expect(rt, "memory for an image");
    assert!(rt; left.as_slice() == image);
}

#[test]
fn a_device_that_fails_in_an_opening(rt: HostRuntime) {
    let image = image_of_three_pages(&rt);
    // It makes seven calls: a sync, and reads of two slots, the directory and three pages.
    for k in 0..8 {
        fail(&rt, &image, k);
    }
}
