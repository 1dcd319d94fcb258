//! One run, stopped at each of its device calls, or with a fault at each of them; and stops within the opening that
//! follows. Every image of a crash opens to a row of the table: the source after the first commands.
//!
//! The last two calls of a command are the write that opens the gate of its root, and the sync that settles it.

use super::asking::Asked::{self, Delete, Publish, Put};
use super::asking::{commands_of, formatted, ran, told_by};
use rs_disk::{Disk, MemoryDisk};
use rs_model::Command;
use rs_store::{Ack, Refusal};
use rs_time::Moment;
use std::alloc::Global;
use std::process::Abort;
use std::test::Fail;

const ASKED: [Asked; 11] = [
    Put(b"a", b"one"),
    Put(b"b", b"two"),
    Publish,
    Put(b"c", b"three"),
    Publish,
    Put(b"d", b"four"),
    Publish,
    Put(b"e", b"five"),
    Publish,
    Delete(b"a"),
    Put(b"b", b"abc"),
];

// The source after zero, one, two commands and so on. Publications 2 and 4 each drop the two changes that are not after
// the publication before.
const TOLD: [&str; 12] = [
    "held:; published 0:; changes 0; last 0",
    "held: a=one; published 0:; changes 1; last 1",
    "held: a=one b=two; published 0:; changes 2; last 2",
    "held: a=one b=two; published 1: a b; changes 2; last 3",
    "held: a=one b=two c=three; published 1: a b; changes 3; last 4",
    "held: a=one b=two c=three; published 2: a b c; changes 1; last 5",
    "held: a=one b=two c=three d=four; published 2: a b c; changes 2; last 6",
    "held: a=one b=two c=three d=four; published 3: a b c d; changes 2; last 7",
    "held: a=one b=two c=three d=four e=five; published 3: a b c d; changes 3; last 8",
    "held: a=one b=two c=three d=four e=five; published 4: a b c d e; changes 1; last 9",
    "held: b=two c=three d=four e=five; published 4: a b c d e; changes 2; last 10",
    "held: b=abc c=three d=four e=five; published 4: a b c d e; changes 3; last 11",
];

/// The run of the commands above on an empty source, without a stop.
#[derive(Drop)]
struct Run {
    /// The bytes of the disk on which it begins.
    image: Vec<u8>,
    commands: Vec<(Command, Moment)>,
    acks: Vec<Ack>,
    /// The number of device calls that it makes, with those of the opening.
    calls: u64,
}

impl Run {
    fn new(alloc: Global) -> Result<Run, Fail> {
        let commands = commands_of(alloc, &ASKED, 0)?;
        let image = formatted(alloc)?;
        let disk = MemoryDisk::from_bytes(alloc, &image)?;
        let (acks, disk) = ran(alloc, disk, &commands)?;
        let calls = disk.calls();
        Ok(Run {
            image,
            commands,
            acks,
            calls,
        })
    }

    /// Returns the result of the run if its calls end after the first `k`.
    fn want(&self, k: u64) -> Want {
        let mut accepted: u64 = 0;
        let mut next: u64 = u64::MAX;
        for ack in &self.acks {
            if ack.at_call <= k {
                accepted = accepted.saturating_add(1);
            } else {
                next = next.min(ack.at_call);
            }
        }
        Want {
            k,
            accepted,
            is_late: next <= k.saturating_add(2),
        }
    }
}

/// The result of a run whose calls end after the first `k`.
#[derive(Clone, Copy)]
struct Want {
    k: u64,
    /// The number of commands that are answered Ok.
    accepted: u64,
    /// Whether the next call opens a gate, or is the sync after that.
    is_late: bool,
}

impl Want {
    /// Returns the content of an image in which all unsettled bytes are zero, or one.
    fn told(&self, ones: bool) -> &str {
        let more = if ones && self.is_late { 1 } else { 0 };
        TOLD[(self.accepted.saturating_add(more) as usize).min(11)]
    }
}

/// Checks that the first answers are Ok, as many as wanted, then one is Device, and the rest are Closed.
fn answers_until(rt: &impl Abort, acks: &[Ack], want: &Want) {
    for (i, ack) in acks.iter().enumerate() {
        let i = i as u64;
        let k = want.k;
        if i < want.accepted {
            assert!(rt; ack.reply.is_ok(), "command {i} with {k} calls");
        } else if i == want.accepted {
            assert_eq!(rt;
                ack.reply,
                Err(Refusal::Device),
                "command {i} with {k} calls"
            );
        } else {
            assert_eq!(rt;
                ack.reply,
                Err(Refusal::Closed),
                "command {i} with {k} calls"
            );
        }
    }
}

/// Checks the content of three images of a disk.
fn images_tell(
    rt: &(impl Abort + AllocGlobal),
    disk: &MemoryDisk,
    want: &Want,
) -> Result<(), Fail> {
    const CHOICES: [(&[u8], bool); 3] = [(&[0], false), (&[1], true), (&[0, 1], false)];
    let k = want.k;
    for (choice, ones) in CHOICES {
        let text = told_by(rt.alloc(), &disk.image(choice)?)?;
        assert_eq!(rt;
            text.as_str(),
            want.told(ones),
            "{choice:?} after {k} calls"
        );
    }
    Ok(())
}

/// Checks that the stop before might have left the content of three images of a disk.
fn images_are_old(
    rt: &(impl Abort + AllocGlobal),
    disk: &MemoryDisk,
    want: &Want,
) -> Result<(), Fail> {
    let k = want.k;
    for choice in [&[0], &[1], &[0, 1]] as [&[u8]; 3] {
        let text = told_by(rt.alloc(), &disk.image(choice)?)?;
        let is_old = text.as_str() == want.told(false) || text.as_str() == want.told(true);
        assert!(rt; is_old, "{text}, {choice:?} after {k} calls");
    }
    Ok(())
}

/// Stops the disk after `k` calls of a run, and returns it.
fn stopped(rt: &(impl Abort + AllocGlobal), run: &Run, k: u64) -> Result<MemoryDisk, Fail> {
    let want = run.want(k);
    let mut disk = MemoryDisk::from_bytes(rt.alloc(), &run.image)?;
    disk.stop_after(k);
    let (acks, disk) = ran(rt.alloc(), disk, &run.commands)?;
    answers_until(rt, &acks, &want);
    images_tell(rt, &disk, &want)?;
    Ok(disk)
}

#[test]
fn a_stop_at_each_call(rt: HostRuntime) -> Result<(), Fail> {
    let run = Run::new(rt.alloc())?;
    for k in 0..run.calls.saturating_add(1) {
        let _disk = stopped(&rt, &run, k)?;
    }
    assert_eq!(rt; run.acks.len(), 11);
    Ok(())
}

/// Stops the opening of a disk after this many calls.
fn stops_opening(
    rt: &(impl Abort + AllocGlobal),
    disk: MemoryDisk,
    want: &Want,
    calls: u64,
) -> Result<MemoryDisk, Fail> {
    let mut disk = disk;
    disk.stop_after(calls);
    let (_, disk) = ran(rt.alloc(), disk, &[])?;
    images_are_old(rt, &disk, want)?;
    Ok(disk)
}

/// Stops the disk after `k` calls of a run, and then the opening that follows, after every number of its calls.
fn stops_opening_at(rt: &(impl Abort + AllocGlobal), run: &Run, k: u64) -> Result<(), Fail> {
    let mut disk = stopped(rt, run, k)?;
    // A sync, both slots, the directory and three pages.
    for calls in 0..8 {
        disk = stops_opening(rt, disk, &run.want(k), calls)?;
    }
    Ok(())
}

#[test]
fn a_stop_within_an_opening(rt: HostRuntime) -> Result<(), Fail> {
    let run = Run::new(rt.alloc())?;
    // The first stops are those within the last command.
    for k in run.calls.saturating_sub(10)..run.calls.saturating_add(1) {
        stops_opening_at(&rt, &run, k)?;
    }
    Ok(())
}

/// Lets one call fail after the first `k` of a run. Checks that the disk then holds the source with the command that
/// met the fault, or without it.
fn fails_at(rt: &(impl Abort + AllocGlobal), run: &Run, k: u64) -> Result<(), Fail> {
    let want = run.want(k);
    let mut disk = MemoryDisk::from_bytes(rt.alloc(), &run.image)?;
    disk.fail_once(k);
    let (acks, disk) = ran(rt.alloc(), disk, &run.commands)?;
    answers_until(rt, &acks, &want);
    let text = told_by(rt.alloc(), &disk.image(&[])?)?;
    let is_without = text.as_str() == want.told(false);
    assert!(rt;
        is_without || text.as_str() == want.told(true),
        "{text} after {k} calls"
    );
    Ok(())
}

#[test]
fn a_fault_at_each_call(rt: HostRuntime) -> Result<(), Fail> {
    let run = Run::new(rt.alloc())?;
    for k in 0..run.calls {
        fails_at(&rt, &run, k)?;
    }
    Ok(())
}
