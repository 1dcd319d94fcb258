//! Puts whose bodies a reader brings.

use super::asking::Answer::{self, Created, Refused, Updated};
use super::asking::{answer_of, disk_of, made, named, plain, told};
use rs_disk::{FaultyReader, MemoryDisk};
use rs_io::Watched;
use rs_store::Refusal::{Full, ReadFault, ShortBody, TooLong};
use rs_store::Source;
use rs_time::Moment;
use std::process::Abort;

/// The bytes of a reader, the number of bytes that it gives in a read, the number of its first read that fails, the
/// declared length of the body, and the answer.
type Row = (&'static [u8], usize, u64, u64, Answer);

// On a disk of 16 blocks, of which 13 are free.
const ROWS: [Row; 13] = [
    // Refused before a byte is read.
    (b"one", 3, 0, 5_121, Refused(Full)),
    (b"one", 3, 0, 16_777_216, Refused(Full)),
    (b"one", 3, 0, 16_777_217, Refused(TooLong)),
    // No more is read than the body.
    (b"one and more", 12, 1, 3, Created(1)),
    (b"", 1, 0, 0, Updated(2)),
    (b"tw", 3, 9, 3, Refused(ShortBody)),
    (b"", 3, 9, 3, Refused(ShortBody)),
    (b"four", 1, 4, 4, Updated(3)),
    (b"four", 1, 3, 4, Refused(ReadFault)),
    (b"four", 2, 1, 4, Refused(ReadFault)),
    (b"four", 4, 0, 4, Refused(ReadFault)),
    (b"for", 1, 4, 4, Refused(ShortBody)),
    (b"five more", 3, 2, 4, Updated(4)),
];

/// Returns the answer of a source to a put of `a` whose body a reader brings.
fn put_from(
    rt: &(impl Abort + AllocGlobal),
    source: &mut Source<MemoryDisk>,
    reader: FaultyReader<'static>,
    length: u64,
) -> Answer {
    let mut reader = Watched::new(reader);
    let now = Moment::first();
    let done = source.put_from(&named(rt, b"a"), &plain(rt), &mut reader, length, now);
    answer_of(&done)
}

/// Puts the bodies of all rows, and checks the answers, and the content of the source at the end.
fn holds_what_came(rt: &(impl Abort + AllocGlobal), source: &mut Source<MemoryDisk>) {
    for (input, piece, fail_at, length, want) in &ROWS {
        let reader = FaultyReader::new(input, (*piece).max(1), *fail_at);
        let answer = put_from(rt, source, reader, *length);
        assert_eq!(rt;
            answer,
            *want,
            "{input:?}, {piece} a read, up to read {fail_at}"
        );
    }
    assert_eq!(rt;
        told(rt, source).as_str(),
        "held: a=five; changes: Created a Updated a Updated a Updated a; published 0:"
    );
}

#[test]
fn the_next_bytes_are_the_body(rt: HostRuntime) {
    let mut source = made(&rt, disk_of(&rt, 8192));
    holds_what_came(&rt, &mut source);
}
