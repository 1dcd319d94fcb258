//! Ends that fail at one of their calls, and the answers of the watched end. No clause states them, since the library's
//! contracts never state that a reader or a writer failed.

use rs_io::{Watched, WriteFault};
use std::alloc::Global;
use std::io;
use std::io::{ErrorKind, Read, Write};

/// A reader or a writer that moves two bytes at most in a call, and fails one call.
#[derive(Drop)]
struct FailsOnce<T> {
    inner: T,
    /// The number of calls before the one that fails, `None` after it.
    calls_before: Option<u32>,
}

impl<T> FailsOnce<T> {
    fn answer(&mut self) -> io::Result<()> {
        self.calls_before = match self.calls_before {
            Some(0) => {
                self.calls_before = None;
                return Err(io::Error::from(ErrorKind::BrokenPipe));
            }
            Some(calls) => Some(calls - 1),
            None => None,
        };
        Ok(())
    }
}

impl<R: Read> Read for FailsOnce<R> {
    fn read(&mut self, buf: &mut [u8]) -> io::Result<usize> {
        self.answer()?;
        let most = buf.len().min(2);
        self.inner.read(&mut buf[..most])
    }
}

impl<W: Write> Write for FailsOnce<W> {
    fn write(&mut self, buf: &[u8]) -> io::Result<usize> {
        self.answer()?;
        let most = buf.len().min(2);
        self.inner.write(&buf[..most])
    }

    fn flush(&mut self) -> io::Result<()> {
        self.answer()?;
        self.inner.flush()
    }
}

/// The number of calls before the failing call of a reader of `abcde`; the numbers of bytes that five reads return,
/// `None` for a failed read; the counts of failures, and of calls of the reader inside; the number of bytes left. After
/// a failure every read fails, and makes no call of the reader inside, which would return more bytes.
type Reads = (u32, [Option<usize>; 5], u64, u64, usize);

const READS: [Reads; 6] = [
    (0, [None, None, None, None, None], 5, 1, 5),
    (1, [Some(2), None, None, None, None], 4, 2, 3),
    (2, [Some(2), Some(2), None, None, None], 3, 3, 1),
    (3, [Some(2), Some(2), Some(1), None, None], 2, 4, 0),
    (4, [Some(2), Some(2), Some(1), Some(0), None], 1, 5, 0),
    (5, [Some(2), Some(2), Some(1), Some(0), Some(0)], 0, 5, 0),
];

/// Returns the results of the reads, and the reader's counts.
fn told_by_reads(fails_at: u32) -> Reads {
    let mut reader = Watched::new(FailsOnce {
        inner: b"abcde".as_slice(),
        calls_before: Some(fails_at),
    });
    let mut told = [None; 5];
    for answer in &mut told {
        *answer = reader.read(&mut [0; 4]).ok();
    }
    let left = reader.get_ref().inner.len();
    (fails_at, told, reader.failures(), reader.calls(), left)
}

#[test]
fn a_read_fails_from_where_the_reader_does(rt: HostRuntime) {
    for want in READS {
        assert_eq!(rt; told_by_reads(want.0), want);
    }
}

/// A reader whose reads are all interrupted.
#[derive(Drop)]
struct InterruptedReader;

impl Read for InterruptedReader {
    fn read(&mut self, _: &mut [u8]) -> io::Result<usize> {
        Err(io::Error::from(ErrorKind::Interrupted))
    }
}

#[test]
fn an_interrupted_read_is_a_fault(rt: HostRuntime) {
    let mut reader = Watched::new(InterruptedReader);
    assert!(rt; reader.read(&mut [0; 4]).is_err());
    assert_eq!(rt; (reader.failures(), reader.calls()), (1, 1));
}

const WROTE: Result<(), WriteFault> = Ok(());

const FAILED: Result<(), WriteFault> = Err(WriteFault);

/// The number of calls before the failing call of a writer; the answers to the bytes `abcd`, to a text of three pieces
/// and to a flush; the counts of failures, and of calls of the writer inside; all written bytes. After a failure every
/// call fails, and makes no call of the writer inside.
type Writes = (u32, [Result<(), WriteFault>; 3], u64, u64, &'static [u8]);

const WRITES: [Writes; 7] = [
    (0, [FAILED, FAILED, FAILED], 3, 1, b""),
    (1, [FAILED, FAILED, FAILED], 3, 2, b"ab"),
    (2, [WROTE, FAILED, FAILED], 2, 3, b"abcd"),
    (3, [WROTE, FAILED, FAILED], 2, 4, b"abcd12"),
    (4, [WROTE, FAILED, FAILED], 2, 5, b"abcd12:"),
    (5, [WROTE, WROTE, FAILED], 1, 6, b"abcd12:30"),
    (6, [WROTE, WROTE, WROTE], 0, 6, b"abcd12:30"),
];

/// Returns the answers, the counts, and the written bytes.
fn told_by_writes(
    alloc: Global,
    fails_at: u32,
) -> ([Result<(), WriteFault>; 3], u64, u64, Vec<u8>) {
    let mut writer = Watched::new(FailsOnce {
        inner: Vec::new(alloc),
        calls_before: Some(fails_at),
    });
    let told = [
        writer.put(b"abcd"),
        writer.put_all(&[b"12", b":", b"30"]),
        writer.flush(),
    ];
    let (failures, calls) = (writer.failures(), writer.calls());
    (told, failures, calls, writer.into_inner().inner)
}

#[test]
fn a_write_fails_from_where_the_writer_does(rt: HostRuntime) {
    for (fails_at, want, failures, calls, written) in WRITES {
        let (told, counted, called, bytes) = told_by_writes(rt.alloc(), fails_at);
        assert_eq!(rt;
            (told, counted, called, bytes.as_slice()),
            (want, failures, calls, written),
            "call {fails_at} fails"
        );
    }
}

/// The number of calls before the failing call of a writer, the answer to the number 12345, and its written digits.
const NUMBERS: [(u32, Result<(), WriteFault>, &[u8]); 4] = [
    (0, FAILED, b""),
    (1, FAILED, b"12"),
    (2, FAILED, b"1234"),
    (3, WROTE, b"12345"),
];

#[test]
fn a_number_fails_within(rt: HostRuntime) {
    for (fails_at, want, written) in NUMBERS {
        let mut writer = Watched::new(FailsOnce {
            inner: Vec::new(rt.alloc()),
            calls_before: Some(fails_at),
        });
        assert_eq!(rt; writer.put_number(12345), want, "call {fails_at} fails");
        assert_eq!(rt; writer.into_inner().inner.as_slice(), written);
    }
}

/// A writer whose first calls are interrupted.
#[derive(Drop)]
struct Interrupted<W> {
    inner: W,
    /// The number of further calls that are interrupted.
    times: u32,
}

impl<W: Write> Write for Interrupted<W> {
    fn write(&mut self, buf: &[u8]) -> io::Result<usize> {
        if self.times > 0 {
            self.times -= 1;
            return Err(io::Error::from(ErrorKind::Interrupted));
        }
        self.inner.write(buf)
    }

    fn flush(&mut self) -> io::Result<()> {
        self.inner.flush()
    }
}

/// The number of interrupted calls of a writer, the answers to the bytes `ab` and `cd`, the count of failures, and all
/// written bytes. One put retries 100 interrupted writes.
const INTERRUPTIONS: [(u32, [Result<(), WriteFault>; 2], u64, &[u8]); 4] = [
    (0, [WROTE, WROTE], 0, b"abcd"),
    (1, [WROTE, WROTE], 0, b"abcd"),
    (100, [WROTE, WROTE], 0, b"abcd"),
    (101, [FAILED, FAILED], 2, b""),
];

#[test]
fn an_interrupted_write_is_tried_again(rt: HostRuntime) {
    for (times, want, failures, written) in INTERRUPTIONS {
        let mut writer = Watched::new(Interrupted {
            inner: Vec::new(rt.alloc()),
            times,
        });
        let told = [writer.put(b"ab"), writer.put(b"cd")];
        assert_eq!(rt; told, want, "{times} interruptions");
        assert_eq!(rt; writer.failures(), failures);
        assert_eq!(rt; writer.into_inner().inner.as_slice(), written);
    }
}

/// A writer that takes no byte, and never fails.
#[derive(Drop)]
struct Full;

impl Write for Full {
    fn write(&mut self, _: &[u8]) -> io::Result<usize> {
        Ok(0)
    }

    fn flush(&mut self) -> io::Result<()> {
        Ok(())
    }
}

#[test]
fn a_write_of_no_byte_is_a_fault(rt: HostRuntime) {
    let mut writer = Watched::new(Full);
    assert_eq!(rt; writer.put(b""), WROTE);
    assert_eq!(rt; writer.failures(), 0);
    assert_eq!(rt; writer.put(b"a"), FAILED);
    assert_eq!(rt; (writer.failures(), writer.calls()), (1, 1));
}

/// A writer whose calls all fail.
#[derive(Drop)]
struct Broken;

impl Write for Broken {
    fn write(&mut self, _: &[u8]) -> io::Result<usize> {
        Err(io::Error::from(ErrorKind::BrokenPipe))
    }

    fn flush(&mut self) -> io::Result<()> {
        Err(io::Error::from(ErrorKind::BrokenPipe))
    }
}

#[test]
fn each_failure_is_counted(rt: HostRuntime) {
    let mut writer = Watched::new(Broken);
    for failures in 0..3u64 {
        assert_eq!(rt; writer.failures(), failures);
        assert_eq!(rt; writer.put(b"abcd"), FAILED);
    }
    assert_eq!(rt; writer.flush(), FAILED);
    assert_eq!(rt; (writer.failures(), writer.calls()), (4, 1));
    assert!(rt; writer.is_broken());
}

#[test]
fn flushed_until_more_is_put(rt: HostRuntime) {
    let mut writer = Watched::new(FailsOnce {
        inner: Vec::new(rt.alloc()),
        calls_before: Some(3),
    });
    assert!(rt; writer.is_flushed());
    assert_eq!(rt; writer.put(b"ab"), WROTE);
    assert!(rt; !writer.is_flushed());
    assert_eq!(rt; writer.flush(), WROTE);
    assert!(rt; writer.is_flushed());
    assert_eq!(rt; writer.put(b"c"), WROTE);
    assert!(rt; !writer.is_flushed());
    assert_eq!(rt; writer.flush(), FAILED);
    assert!(rt; !writer.is_flushed() && writer.is_broken());
    assert_eq!(rt; writer.flush(), FAILED);
    assert_eq!(rt; writer.calls(), 4);
}
