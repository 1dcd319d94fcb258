//! Sessions that are cut at every call: the device stops there, or fails this call once. Every image that a crash may
//! leave opens to the source before the command that was cut, or to the source after it.
//!
//! A command writes its body, its pages and its directory. Its commit closes the gate of the spare if that gate is
//! open, writes the bytes after the gate and opens the gate, every step by a write and a sync. The spare of a new
//! source is closed; after every commit it is open.

use super::asking::Answer::{self, Created, Deleted, Grouped, Published, Refused, Updated};
use super::asking::Asked::{self, Delete, Group, Publish, Put, Receive};
use super::asking::Part::{Gone, Held};
use super::asking::{ask, disk_of, made, opened, told};
use rs_disk::MemoryDisk;
use rs_store::Refusal::{Closed, Device, NotHeld};
use rs_store::Source;
use std::process::Abort;

/// A command of a session, at moment 0.
#[derive(Clone, Copy)]
struct Step {
    asked: Asked,
    /// The answer without a fault.
    answer: Answer,
    /// The number of its device calls.
    calls: u64,
    /// The content of the source after it.
    told: &'static str,
}

// The content of a new source.
const EMPTY: &str = "held:; changes:; published 0:";

// Puts and a publication.
const PUTS: [Step; 6] = [
    // Four writes, of the body, two pages and the directory; four calls of a commit that finds the spare closed.
    Step {
        asked: Put(b"a", b"one"),
        answer: Created(1),
        calls: 8,
        told: "held: a=one; changes: Created a; published 0:",
    },
    // Six calls of the commit, from now on.
    Step {
        asked: Put(b"b", b"two"),
        answer: Created(2),
        calls: 10,
        told: "held: a=one b=two; changes: Created a Created b; published 0:",
    },
    Step {
        asked: Receive(b"a", b"three"),
        answer: Updated(3),
        calls: 10,
        told: "held: a=three b=two; changes: Created a Created b Updated a; published 0:",
    },
    // No body is written, and then no page either.
    Step {
        asked: Put(b"c", b""),
        answer: Created(4),
        calls: 9,
        told: "held: a=three b=two c=; changes: Created a Created b Updated a Created c; published 0:",
    },
    Step {
        asked: Publish,
        answer: Published(1, 5),
        calls: 7,
        told: "held: a=three b=two c=; changes: Created a Created b Updated a Created c; published 1: a b c",
    },
    Step {
        asked: Delete(b"b"),
        answer: Deleted(6),
        calls: 9,
        told: "held: a=three c=; changes: Created a Created b Updated a Created c Deleted b; published 1: a b c",
    },
];

// A resource that comes and goes.
const DELETES: [Step; 5] = [
    Step {
        asked: Put(b"a", b"one"),
        answer: Created(1),
        calls: 8,
        told: "held: a=one; changes: Created a; published 0:",
    },
    // The page of the changes and the directory, since no record is left.
    Step {
        asked: Delete(b"a"),
        answer: Deleted(2),
        calls: 8,
        told: "held:; changes: Created a Deleted a; published 0:",
    },
    Step {
        asked: Delete(b"a"),
        answer: Refused(NotHeld),
        calls: 0,
        told: "held:; changes: Created a Deleted a; published 0:",
    },
    Step {
        asked: Publish,
        answer: Published(1, 3),
        calls: 7,
        told: "held:; changes: Created a Deleted a; published 1:",
    },
    Step {
        asked: Put(b"a", b"two"),
        answer: Created(4),
        calls: 10,
        told: "held: a=two; changes: Created a Deleted a Created a; published 1:",
    },
];

// Groups of three and of two.
const GROUPS: [Step; 4] = [
    Step {
        asked: Put(b"a", b"one"),
        answer: Created(1),
        calls: 8,
        told: "held: a=one; changes: Created a; published 0:",
    },
    // The second body of `b`, a page of either list, the directory, and one commit.
    Step {
        asked: Group(&[Held(b"b", b"two"), Gone(b"a"), Held(b"b", b"three")]),
        answer: Grouped(3, 2),
        calls: 10,
        told: "held: b=three; changes: Created a Created b Deleted a Updated b; published 0:",
    },
    Step {
        asked: Group(&[Held(b"c", b""), Gone(b"z")]),
        answer: Refused(NotHeld),
        calls: 0,
        told: "held: b=three; changes: Created a Created b Deleted a Updated b; published 0:",
    },
    Step {
        asked: Delete(b"b"),
        answer: Deleted(5),
        calls: 8,
        told: "held:; changes: Created a Created b Deleted a Updated b Deleted b; published 0:",
    },
];

// The device calls of a formatting: one write of the directory, and five calls for the slots.
const FORMATTING: u64 = 6;

/// The point at which a failed device call cuts a session.
#[derive(Clone, Copy)]
struct Cut {
    /// The number of commands that were answered before it.
    done: usize,
    /// The content of the source before the command that is cut.
    old: &'static str,
    /// The content after that command.
    new: &'static str,
    /// The number of calls that the command still had to make, with the failed one.
    calls: u64,
}

/// Returns the point at which a session is cut whose device fails after `k` calls.
fn cut_after(steps: &[Step], k: u64) -> Cut {
    let mut cut = Cut {
        done: 0,
        old: EMPTY,
        new: EMPTY,
        calls: 0,
    };
    let mut left = k;
    for step in steps {
        cut.new = step.told;
        if left < step.calls {
            cut.calls = step.calls - left;
            return cut;
        }
        left -= step.calls;
        cut.old = step.told;
        cut.done = cut.done.saturating_add(1);
    }
    cut
}

impl Cut {
    /// Returns the answer to the command of this number. Without a fault it is `answer`.
    fn answer(self, number: usize, answer: Answer) -> Answer {
        if number < self.done {
            answer
        } else if number == self.done {
            Refused(Device)
        } else {
            Refused(Closed)
        }
    }

    /// Returns the content of the source, if a command is whole once it has at most this many calls to make.
    fn tells(self, calls: u64) -> &'static str {
        if self.calls <= calls {
            self.new
        } else {
            self.old
        }
    }
}

/// Gives a source all commands of a session, and checks all answers.
fn answers(
    rt: &(impl Abort + AllocGlobal),
    source: &mut Source<MemoryDisk>,
    steps: &[Step],
    cut: Cut,
) {
    for (number, step) in steps.iter().enumerate() {
        let answer = ask(rt, source, step.asked);
        let want = cut.answer(number, step.answer);
        assert_eq!(rt; answer, want, "{:?}", step.asked);
    }
}

/// Returns the disk of a session that is cut.
fn left_by(
    rt: &(impl Abort + AllocGlobal),
    disk: MemoryDisk,
    steps: &[Step],
    cut: Cut,
) -> MemoryDisk {
    let mut source = made(rt, disk);
    answers(rt, &mut source, steps, cut);
    source.into_disk()
}

/// Returns the disk of a session whose device stops after `k` calls.
fn stopped(rt: &(impl Abort + AllocGlobal), steps: &[Step], k: u64, cut: Cut) -> MemoryDisk {
    let mut disk = disk_of(rt, 65536);
    disk.stop_after(k.saturating_add(FORMATTING));
    left_by(rt, disk, steps, cut)
}

/// Returns the disk of a session whose device fails one call, after `k` other calls.
fn failed(rt: &(impl Abort + AllocGlobal), steps: &[Step], k: u64, cut: Cut) -> MemoryDisk {
    let mut disk = disk_of(rt, 65536);
    disk.fail_once(k.saturating_add(FORMATTING));
    left_by(rt, disk, steps, cut)
}

/// Returns the image of a choice, as a disk.
fn image_of(rt: &(impl Abort + AllocGlobal), disk: &MemoryDisk, choice: &[u8]) -> MemoryDisk {
    let image = disk.image(choice).expect(rt, "memory for an image");
    MemoryDisk::from_bytes(rt.alloc(), &image).expect(rt, "memory for a disk")
}

/// Checks the content of the source on a disk, and returns the disk.
fn tells(rt: &(impl Abort + AllocGlobal), disk: MemoryDisk, k: u64, want: &str) -> MemoryDisk {
    let mut source = opened(rt, disk);
    let text = told(rt, &mut source);
    assert_eq!(rt; text.as_str(), want, "after {k} calls");
    source.into_disk()
}

// The choices that make images, and the number of calls: in the image a command is whole once it has at most this many
// calls to make. The gate is the lowest of the unsettled places, so it has the first byte of the choice; the empty
// choice gives the bytes that a read gives.
const IMAGES: [(&[u8], u64); 5] = [(&[], 1), (&[0], 0), (&[1], 2), (&[0, 1], 0), (&[1, 0], 2)];

// Choices for a disk without unsettled places, where all of them give the same bytes.
const CHOICES: [&[u8]; 5] = [&[0], &[1], &[255], &[0, 1], &[1, 0, 255]];

/// Checks that a disk is settled: all of its images have the bytes that a read gives.
fn is_settled(rt: &(impl Abort + AllocGlobal), disk: &MemoryDisk, k: u64) {
    let bytes = disk.image(&[]).expect(rt, "memory for an image");
    for choice in &CHOICES {
        let image = disk.image(choice).expect(rt, "memory for an image");
        assert!(rt; image == bytes, "{choice:?}, after {k} calls");
    }
}

/// Opens all of these images of a disk, and checks their content.
fn images_tell(rt: &(impl Abort + AllocGlobal), disk: &MemoryDisk, k: u64, cut: Cut) {
    for (choice, calls) in &IMAGES {
        let image = image_of(rt, disk, choice);
        let _image = tells(rt, image, k, cut.tells(*calls));
    }
}

/// Stops a device after `k` calls of a session.
fn stop(rt: &(impl Abort + AllocGlobal), steps: &[Step], k: u64, cut: Cut) {
    let disk = stopped(rt, steps, k, cut);
    images_tell(rt, &disk, k, cut);
}

/// Fails one call of a device, after `k` other calls of a session, and opens the disk again. That settles it.
fn fail(rt: &(impl Abort + AllocGlobal), steps: &[Step], k: u64, cut: Cut) {
    let disk = failed(rt, steps, k, cut);
    images_tell(rt, &disk, k, cut);
    let disk = tells(rt, disk, k, cut.tells(1));
    is_settled(rt, &disk, k);
    for choice in [0, 1] {
        let _image = tells(rt, image_of(rt, &disk, &[choice]), k, cut.tells(1));
    }
}

/// Stops and fails a device at every call of a session, and stops it after the last call.
fn cut_everywhere(rt: &(impl Abort + AllocGlobal), steps: &[Step], calls: u64) {
    for k in 0..calls {
        let cut = cut_after(steps, k);
        assert!(rt; cut.calls > 0, "a session of {calls} calls");
        stop(rt, steps, k, cut);
        fail(rt, steps, k, cut);
    }
    let whole = cut_after(steps, calls);
    assert_eq!(rt; whole.calls, 0, "a session of {calls} calls");
    stop(rt, steps, calls, whole);
}

#[test]
fn a_command_is_whole_or_absent(rt: HostRuntime) {
    cut_everywhere(&rt, &PUTS, 53);
    cut_everywhere(&rt, &DELETES, 33);
}

#[test]
fn a_group_is_whole_or_absent(rt: HostRuntime) {
    cut_everywhere(&rt, &GROUPS, 26);
}

/// The gates of the two slots.
fn gates(image: &[u8]) -> [u8; 2] {
    if image.len() > 512 {
        [image[0], image[512]]
    } else {
        [0, 0]
    }
}

#[test]
fn a_stop_while_the_gate_of_the_spare_is_closed(rt: HostRuntime) {
    // After the put of `a` the second slot has the root, and the first one is the spare, which is open. The put of `b`
    // makes four writes before that of the gate.
    let disk = stopped(&rt, &PUTS, 12, cut_after(&PUTS, 12));
    for gate in [0, 1] {
        let image = disk.image(&[gate]).expect(&rt, "memory for an image");
        assert_eq!(rt; gates(&image), [gate, 1]);
    }
}
