//! Disks in memory, with images worked out by hand.

use crate::images::image_is;
use rs_disk::{Disk, Fault, MemoryDisk};
use std::process::Abort;
use std::test::Fail;

/// A call of a disk, or a check of it.
#[derive(Debug)]
enum Step<'a> {
    /// A write at an offset, and its result.
    Write(u64, &'a [u8], Result<(), Fault>),
    /// A sync, and its result.
    Sync(Result<(), Fault>),
    /// An offset, and the bytes that a read returns there.
    Read(u64, &'a [u8]),
    /// A read that fails.
    ReadFails,
    /// A choice, and its image.
    Image(&'a [u8], &'a [u8]),
    /// After this many further calls every call fails.
    StopAfter(u64),
    /// After this many further calls one call fails.
    FailOnce(u64),
    /// The number of counted calls, and the number of those that failed.
    Counts(u64, u64),
}

/// A disk of eight zero bytes: a write, and a sync.
const SOUND: &[Step<'static>] = &[
    Step::Write(2, &[1, 2, 3], Ok(())),
    Step::Image(&[9], &[0, 0, 9, 9, 9, 0, 0, 0]),
    Step::Image(&[7, 8], &[0, 0, 7, 8, 7, 0, 0, 0]),
    Step::Image(&[4, 5, 6], &[0, 0, 4, 5, 6, 0, 0, 0]),
    Step::Image(&[4, 5, 6, 7], &[0, 0, 4, 5, 6, 0, 0, 0]),
    Step::Image(&[], &[0, 0, 1, 2, 3, 0, 0, 0]),
    Step::Sync(Ok(())),
    Step::Image(&[9], &[0, 0, 1, 2, 3, 0, 0, 0]),
    Step::Read(1, &[0, 1, 2, 3]),
    Step::Counts(3, 0),
];

/// The same disk: one write fails halfway. An earlier plan is replaced.
const HALFWAY: &[Step<'static>] = &[
    Step::StopAfter(0),
    Step::FailOnce(0),
    Step::Write(2, &[1, 2, 3], Err(Fault)),
    Step::Read(0, &[0, 0, 1, 0, 0, 0, 0, 0]),
    Step::Image(&[9], &[0, 0, 9, 9, 9, 0, 0, 0]),
    Step::Counts(2, 1),
    Step::Sync(Ok(())),
    Step::Image(&[9], &[0, 0, 1, 0, 0, 0, 0, 0]),
    Step::Counts(3, 1),
];

/// A disk of the bytes 1, 2, 3 and 4 that stops at a write, and is mended.
const STOPPED: &[Step<'static>] = &[
    Step::FailOnce(0),
    Step::StopAfter(1),
    Step::Write(0, &[5], Ok(())),
    Step::Write(1, &[6, 7], Err(Fault)),
    Step::Image(&[], &[5, 2, 3, 4]),
    Step::Image(&[9], &[9, 9, 9, 4]),
    Step::Write(3, &[8], Err(Fault)),
    Step::Sync(Err(Fault)),
    Step::ReadFails,
    Step::Image(&[9], &[9, 9, 9, 4]),
    Step::Counts(5, 4),
    Step::FailOnce(9),
    Step::Sync(Ok(())),
    Step::Image(&[9], &[5, 2, 3, 4]),
];

/// The same disk: a read, a sync and an empty write fail once, one after another. Then it stops at a read, after which
/// a write leaves the disk as it was.
const OTHER_CALLS: &[Step<'static>] = &[
    Step::Write(0, &[5, 6], Ok(())),
    Step::FailOnce(0),
    Step::ReadFails,
    Step::FailOnce(0),
    Step::Sync(Err(Fault)),
    Step::FailOnce(0),
    Step::Write(4, &[], Err(Fault)),
    Step::Image(&[9], &[9, 9, 3, 4]),
    Step::Read(0, &[5, 6, 3, 4]),
    Step::Counts(5, 3),
    Step::StopAfter(0),
    Step::ReadFails,
    Step::Write(2, &[7], Err(Fault)),
    Step::Image(&[9], &[9, 9, 3, 4]),
    Step::Image(&[], &[5, 6, 3, 4]),
];

/// A disk of no bytes.
const EMPTY: &[Step<'static>] = &[
    Step::Write(0, &[], Ok(())),
    Step::Read(0, &[]),
    Step::Sync(Ok(())),
    Step::Image(&[9], &[]),
    Step::Image(&[], &[]),
    Step::Counts(3, 0),
];

/// Writes bytes, which have to lie on the disk.
fn write(rt: &impl Abort, disk: &mut MemoryDisk, at: u64, bytes: &[u8]) -> Result<(), Fault> {
    assert!(rt; at <= 8 && bytes.len() <= 8 && at + bytes.len() as u64 <= disk.size());
    disk.write(at, bytes)
}

/// Returns whether a read returns these bytes, which have to lie on the disk.
fn reads(rt: &impl Abort, disk: &mut MemoryDisk, at: u64, wanted: &[u8]) -> bool {
    let n = wanted.len();
    assert!(rt; at <= 8 && n <= 8 && at + n as u64 <= disk.size());
    let mut room = [9; 8];
    disk.read(at, &mut room[..n]).is_ok() && &room[..n] == wanted
}

/// Does a step, and returns whether the disk behaves as the step expects.
fn is_so(rt: &impl Abort, disk: &mut MemoryDisk, step: &Step<'_>) -> bool {
    match *step {
        Step::Write(at, bytes, wanted) => write(rt, disk, at, bytes) == wanted,
        Step::Sync(wanted) => disk.sync() == wanted,
        Step::Read(at, wanted) => reads(rt, disk, at, wanted),
        Step::ReadFails => disk.read(0, &mut []) == Err(Fault),
        Step::Image(choice, wanted) => image_is(disk, choice, wanted),
        Step::Counts(calls, faults) => disk.calls() == calls && disk.faults() == faults,
        Step::StopAfter(k) => {
            disk.stop_after(k);
            true
        }
        Step::FailOnce(k) => {
            disk.fail_once(k);
            true
        }
    }
}

/// Does these steps in turn.
fn does(rt: &impl Abort, disk: &mut MemoryDisk, steps: &[Step<'_>]) {
    for step in steps {
        assert!(rt; is_so(rt, disk, step), "{step:?}");
    }
}

#[test]
fn disks_of_zeros(rt: HostRuntime) -> Result<(), Fail> {
    for (size, steps) in [(8, SOUND), (8, HALFWAY), (0, EMPTY)] {
        let mut disk = MemoryDisk::new(rt.alloc(), size)?;
        does(&rt, &mut disk, steps);
    }
    Ok(())
}

#[test]
fn disks_of_bytes(rt: HostRuntime) -> Result<(), Fail> {
    for steps in [STOPPED, OTHER_CALLS] {
        let mut disk = MemoryDisk::from_bytes(rt.alloc(), &[1, 2, 3, 4])?;
        does(&rt, &mut disk, steps);
    }
    Ok(())
}
