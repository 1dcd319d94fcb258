//! Worked examples of runs.

use super::asking::Answer::{Created, Deleted, Refused};
use super::asking::Asked::{self, Delete, Put};
use super::asking::{Answer, answer_of, at, commands_of, formatted, ran, told, told_by};
use rs_disk::{Disk, MemoryDisk};
use rs_recovery::format_run_recover;
use rs_store::Ack;
use rs_store::Refusal::{Closed, Device, NotHeld};
use std::alloc::Global;
use std::process::Abort;
use std::test::Fail;

/// Runs commands at a moment on a disk of these bytes; one call fails after the first `k`. Checks the answers, and
/// returns the bytes that a read then gives.
fn answers(
    rt: &(impl Abort + AllocGlobal),
    image: &[u8],
    asked: &[Asked],
    now: u64,
    k: u64,
    want: &[Answer],
) -> Result<Vec<u8>, Fail> {
    let commands = commands_of(rt.alloc(), asked, now)?;
    let mut disk = MemoryDisk::from_bytes(rt.alloc(), image)?;
    disk.fail_once(k);
    let (acks, disk) = ran(rt.alloc(), disk, &commands)?;
    assert_eq!(rt; acks.len(), want.len());
    let mut last: u64 = 0;
    for (ack, want) in acks.iter().zip(want) {
        assert_eq!(rt; answer_of(ack), *want, "with {k} calls");
        assert!(rt; last <= ack.at_call);
        last = ack.at_call;
    }
    assert!(rt; last <= disk.calls());
    Ok(disk.image(&[])?)
}

/// Checks the source on a disk of these bytes.
fn tells(rt: &(impl Abort + AllocGlobal), image: &[u8], want: &str) -> Result<(), Fail> {
    let text = told_by(rt.alloc(), image)?;
    assert_eq!(rt; text.as_str(), want);
    Ok(())
}

// A call that is never reached.
const NEVER: u64 = 1_000_000;

#[test]
fn a_refused_command_does_not_end_a_run(rt: HostRuntime) -> Result<(), Fail> {
    const ASKED: [Asked; 4] = [Delete(b"z"), Put(b"z", b""), Delete(b"z"), Put(b"z", b"")];
    const WANT: [Answer; 4] = [
        Refused(NotHeld),
        Created(1000),
        Deleted(1001),
        Created(1002),
    ];
    let image = formatted(rt.alloc())?;
    let image = answers(&rt, &image, &ASKED, 1000, NEVER, &WANT)?;
    tells(&rt, &image, "held: z=; published 0:; changes 3; last 1002")
}

/// Returns the bytes of a disk whose source has `a`.
fn with_a(rt: &(impl Abort + AllocGlobal)) -> Result<Vec<u8>, Fail> {
    let image = formatted(rt.alloc())?;
    answers(rt, &image, &[Put(b"a", b"one")], 0, NEVER, &[Created(1)])
}

#[test]
fn a_sync_that_fails_in_a_delete(rt: HostRuntime) -> Result<(), Fail> {
    // The opening makes a sync and reads both slots, the directory and two pages. The delete writes a page and the
    // directory; then it closes the spare's gate, writes the bytes after it and opens the gate, each by a write and a
    // sync.
    const ROWS: [(u64, &str); 3] = [
        (6 + 3, "held: a=one; published 0:; changes 1; last 1"),
        (6 + 5, "held: a=one; published 0:; changes 1; last 1"),
        (6 + 7, "held:; published 0:; changes 2; last 2"),
    ];
    let image = with_a(&rt)?;
    for (k, want) in ROWS {
        let asked = [Delete(b"a"), Put(b"b", b"")];
        let left = answers(
            &rt,
            &image,
            &asked,
            0,
            k,
            &[Refused(Device), Refused(Closed)],
        )?;
        tells(&rt, &left, want)?;
    }
    Ok(())
}

/// Formats a disk that stops after this many calls, runs a put and a delete, and recovers from the image in which every
/// unsettled byte is 9. Returns the answers, and the recovered source as one line of text.
fn recovered(alloc: Global, calls: u64) -> Result<(Vec<Ack>, String), Fail> {
    let commands = commands_of(alloc, &[Put(b"a", b"one"), Delete(b"a")], 1000)?;
    let mut disk = MemoryDisk::new(alloc, 16384)?;
    disk.stop_after(calls);
    match format_run_recover(alloc, disk, b"http://a", 2, at(0)?, &commands, &[9]) {
        Ok((acks, _, source)) => {
            let mut source = source;
            Ok((acks, told(alloc, &mut source)?))
        }
        Err(_) => Err("not recovered".into()),
    }
}

#[test]
fn a_run_is_recovered_from_an_image(rt: HostRuntime) -> Result<(), Fail> {
    // The formatting makes six calls, and the put ten.
    const ROWS: [(u64, Answer, &str); 2] = [
        (
            6 + 10,
            Refused(Device),
            "held: a=one; published 0:; changes 1; last 1000",
        ),
        (
            NEVER,
            Deleted(1001),
            "held:; published 0:; changes 2; last 1001",
        ),
    ];
    for (calls, want, text) in ROWS {
        let (acks, told) = recovered(rt.alloc(), calls)?;
        let last = acks.last().map(answer_of);
        assert_eq!(rt; (acks.len(), last, told.as_str()), (2, Some(want), text));
    }
    Ok(())
}
