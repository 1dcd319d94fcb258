//! Puts whose bodies come in pieces: the number of bytes that are read, the effect of a fault within the bodies, and
//! the free blocks after it. The digests are from Python's `hashlib`.

use super::asking::Answer::{self, Created, Refused};
use super::asking::{answer_of, disk_of, made, named, opened, plain};
use rs_disk::{FaultyReader, MemoryDisk};
use rs_io::Watched;
use rs_store::Refusal::{Device, Full, ReadFault, ShortBody};
use rs_store::Source;
use rs_time::Moment;
use std::io::Read;
use std::process::Abort;

// The device calls of a formatting.
const FORMATTING: u64 = 6;

/// Returns bytes that count from 0 to 250, and then again.
fn counting(rt: &(impl Abort + AllocGlobal), length: u32) -> Vec<u8> {
    let mut bytes = Vec::new(rt.alloc());
    for i in 0..length {
        bytes.push((i % 251) as u8).expect(rt, "memory");
    }
    bytes
}

/// Returns the answer of a source to a put of `a` whose body a reader brings.
fn receive<R: Read + Drop>(
    rt: &(impl Abort + AllocGlobal),
    source: &mut Source<MemoryDisk>,
    reader: R,
    length: u64,
) -> Answer {
    let mut reader = Watched::new(reader);
    let now = Moment::first();
    answer_of(&source.put_from(&named(rt, b"a"), &plain(rt), &mut reader, length, now))
}

/// Returns the recorded MD5 of the first resource, as a number.
fn first_md5(rt: &impl Abort, source: &Source<MemoryDisk>) -> u128 {
    let records = source.records().expect(rt, "records");
    match records.first() {
        Some(record) => u128::from_be_bytes(record.digests.md5),
        None => 0,
    }
}

/// Puts these bytes, one per read, and checks the answer and the body after it.
fn is_received(rt: &(impl Abort + AllocGlobal), source: &mut Source<MemoryDisk>, bytes: &[u8]) {
    let reader = FaultyReader::new(bytes, 1, u64::MAX);
    assert_eq!(rt; receive(rt, source, reader, bytes.len() as u64), Created(1));
    let body = source.body(&named(rt, b"a")).expect(rt, "a body");
    assert!(rt; body.as_slice() == bytes);
    assert_eq!(rt; first_md5(rt, source), 0xbbf1c77538f97ceeb1e03126edaa3594);
}

#[test]
fn one_byte_a_read(rt: HostRuntime) {
    let mut source = made(&rt, disk_of(&rt, 65_536));
    is_received(&rt, &mut source, &counting(&rt, 10_000));
}

/// The number of bytes of a body of 10,000 that come, the number of the read that fails, and the answer.
const CUT: [(u32, u64, Answer); 2] = [
    (10_000, 1, Refused(ReadFault)),
    (4_096, 9, Refused(ShortBody)),
];

#[test]
fn a_body_that_is_cut_short_takes_no_blocks(rt: HostRuntime) {
    // A put takes its body and three more of the 61 free blocks.
    let mut source = made(&rt, disk_of(&rt, 32_768));
    let most = counting(&rt, 29_697);
    for (came, fail_at, want) in &CUT {
        let bytes = counting(&rt, *came);
        let reader = FaultyReader::new(&bytes, 4_096, *fail_at);
        assert_eq!(rt; receive(&rt, &mut source, reader, 10_000), *want);
        let full = receive(&rt, &mut source, most.as_slice(), 29_697);
        assert_eq!(rt; full, Refused(Full));
    }
    let fits = receive(&rt, &mut source, most.as_slice(), 29_696);
    assert_eq!(rt; fits, Created(1));
}

/// Checks that a put of 10,000 bytes fails because of the device, and reads at most two pieces.
fn reads_two_pieces(
    rt: &(impl Abort + AllocGlobal),
    source: &mut Source<MemoryDisk>,
    bytes: &[u8],
) {
    let mut reader = Watched::new(bytes);
    let now = Moment::first();
    let done = source.put_from(&named(rt, b"a"), &plain(rt), &mut reader, 10_000, now);
    assert_eq!(rt; answer_of(&done), Refused(Device));
    assert_eq!(rt; reader.get_ref().len(), 10_000 - 8_192);
}

#[test]
fn the_second_piece_is_not_written(rt: HostRuntime) {
    let mut disk = disk_of(&rt, 65_536);
    disk.stop_after(FORMATTING + 1);
    let mut source = made(&rt, disk);
    reads_two_pieces(&rt, &mut source, &counting(&rt, 10_000));
}

/// Returns the number of resources that the source on an image of a disk holds.
fn held_in(rt: &(impl Abort + AllocGlobal), disk: &MemoryDisk, choice: u8) -> u32 {
    let image = disk.image(&[choice]).expect(rt, "memory for an image");
    let disk = MemoryDisk::from_bytes(rt.alloc(), &image).expect(rt, "memory for a disk");
    let source = opened(rt, disk);
    source.status().expect(rt, "a status").resources
}

/// Returns the disk of a put of 9,000 bytes in three pieces, which stops after `k` calls of it, and the answer.
fn stopped(rt: &(impl Abort + AllocGlobal), bytes: &[u8], k: u64) -> (Answer, MemoryDisk) {
    let mut disk = disk_of(rt, 65_536);
    disk.stop_after(k.saturating_add(FORMATTING));
    let mut source = made(rt, disk);
    let answer = receive(rt, &mut source, bytes, 9_000);
    (answer, source.into_disk())
}

#[test]
fn a_streamed_put_is_whole_or_absent(rt: HostRuntime) {
    // Three pieces, two pages and the directory; then the spare's bytes and its gate, both with a sync.
    let bytes = counting(&rt, 9_000);
    for k in 0..10 {
        let (answer, disk) = stopped(&rt, &bytes, k);
        assert_eq!(rt; answer, Refused(Device), "after {k} calls");
        // From the write of the gate on, an image may have it open.
        let new = if k < 8 { 0 } else { 1 };
        let held = (held_in(&rt, &disk, 0), held_in(&rt, &disk, 1));
        assert_eq!(rt; held, (0, new), "after {k} calls");
    }
    let (answer, disk) = stopped(&rt, &bytes, 10);
    let held = (held_in(&rt, &disk, 0), held_in(&rt, &disk, 1));
    assert_eq!(rt; (answer, held), (Created(1), (1, 1)));
}
