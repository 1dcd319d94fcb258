//! Requests over readers and writers that fail or wait.

use crate::ends::{Call, FailsOnce};
use crate::sources::{commands_of, new_source};
use rs_disk::{FaultyReader, FaultyWriter, MemoryDisk};
use rs_http::{Served, StatusCode, serve_one};
use rs_io::{StreamFault, Watched};
use rs_store::Source;
use rs_time::Moment;
use std::alloc::Global;
use std::cell::Cell;
use std::io;
use std::io::{ErrorKind, Read, Write};
use std::process::Abort;
use std::test::Fail;

/// The head of a put that waits for the word to go on.
const HEAD: &[u8] =
    b"PUT /resource/c HTTP/1.1\r\nHost: a\r\nExpect: 100-continue\r\nContent-Length: 3\r\n\r\n";

/// The whole put.
const PUT: &[u8] =
    b"PUT /resource/c HTTP/1.1\r\nHost: a\r\nExpect: 100-continue\r\nContent-Length: 3\r\n\r\nabc";

/// The word to go on.
const WORD: &[u8] = b"HTTP/1.1 100 Continue\r\n\r\n";

/// Returns the result of the put if the reader and the writer fail from these calls on, and the number of bytes
/// written.
fn put_between(
    alloc: Global,
    source: &mut Source<MemoryDisk>,
    read_fails: u64,
    write_fails: u64,
) -> (Result<Served, StreamFault>, usize) {
    let mut reader = Watched::new(FaultyReader::new(PUT, 1, read_fails));
    let mut writer = Watched::new(FaultyWriter::new(alloc, write_fails));
    let served = serve_one(alloc, source, &mut reader, &mut writer, Moment::first());
    (served, writer.get_ref().bytes().len())
}

/// Lets every read fail in turn. The source is unchanged, and at most the word to go on is written.
fn fails_at_each_read(
    rt: &(impl Abort + AllocGlobal),
    source: &mut Source<MemoryDisk>,
) -> Result<(), Fail> {
    for read_fails in 0..PUT.len() {
        let written = if read_fails < HEAD.len() {
            0
        } else {
            WORD.len()
        };
        let found = put_between(rt.alloc(), source, read_fails as u64, u64::MAX);
        assert!(rt;
            found == (Err(StreamFault::Read), written),
            "read {read_fails}"
        );
    }
    assert!(rt; commands_of(source)? == 0);
    Ok(())
}

/// Lets every write fail in turn. The put is done only if the word to go on was written.
fn fails_at_each_write(
    rt: &(impl Abort + AllocGlobal),
    source: &mut Source<MemoryDisk>,
) -> Result<(), Fail> {
    for write_fails in 0..100 {
        let (found, written) = put_between(rt.alloc(), source, u64::MAX, write_fails);
        assert!(rt; commands_of(source)? == write_fails, "write {write_fails}");
        if found == Ok(Served::Answered(StatusCode::NoContent)) {
            assert!(rt; write_fails > 1 && written > WORD.len());
            return Ok(());
        }
        assert!(rt; found == Err(StreamFault::Write), "write {write_fails}");
    }
    Err("a hundred writes".into())
}

/// Lets one call of the writer fail, and the ones after it work. The put is done if the word to go on was flushed
/// before.
fn fails_once_writing(
    rt: &(impl Abort + AllocGlobal),
    source: &mut Source<MemoryDisk>,
) -> Result<(), Fail> {
    let mut flushed = false;
    for fails_at in 0..100 {
        let before = commands_of(source)?;
        let mut reader = Watched::new(PUT);
        let mut writer = Watched::new(FailsOnce::new(Vec::new(rt.alloc()), fails_at));
        let served = serve_one(
            rt.alloc(),
            source,
            &mut reader,
            &mut writer,
            Moment::first(),
        );
        let failed = writer.get_ref().failed();
        let done = commands_of(source)?.checked_sub(before);
        assert!(rt; done == Some(flushed as u64), "call {fails_at}");
        if failed.is_none() {
            assert!(rt; served.is_ok());
            return Ok(());
        }
        assert!(rt; served == Err(StreamFault::Write), "call {fails_at}");
        flushed = flushed || failed == Some(Call::Flush);
    }
    Err("a hundred calls".into())
}

/// Lets the reader and the writer fail.
fn fails_at_each_end(
    rt: &(impl Abort + AllocGlobal),
    source: &mut Source<MemoryDisk>,
) -> Result<(), Fail> {
    fails_at_each_read(rt, source)?;
    fails_at_each_write(rt, source)?;
    fails_once_writing(rt, source)
}

#[test]
fn ends_that_fail(rt: HostRuntime) -> Result<(), Fail> {
    let mut source = new_source(rt.alloc())?;
    fails_at_each_end(&rt, &mut source)
}

/// A reader that gives no byte past the head before the word to go on is written.
#[derive(Drop)]
struct PatientReader<'a> {
    head: &'a [u8],
    body: &'a [u8],
    written: &'a Cell<usize>,
}

impl Read for PatientReader<'_> {
    fn read(&mut self, buf: &mut [u8]) -> io::Result<usize> {
        let all: &[u8] = if !self.head.is_empty() {
            self.head
        } else if self.written.get() == WORD.len() {
            self.body
        } else {
            return Err(io::Error::from(ErrorKind::Other));
        };
        let n = buf.len().min(all.len());
        buf[..n].copy_from_slice(&all[..n]);
        if self.head.is_empty() {
            self.body = &all[n..];
        } else {
            self.head = &all[n..];
        }
        Ok(n)
    }
}

/// A writer that counts its bytes.
#[derive(Drop)]
struct CountingWriter<'a> {
    written: &'a Cell<usize>,
}

impl Write for CountingWriter<'_> {
    fn write(&mut self, buf: &[u8]) -> io::Result<usize> {
        self.written
            .set(self.written.get().saturating_add(buf.len()));
        Ok(buf.len())
    }

    fn flush(&mut self) -> io::Result<()> {
        Ok(())
    }
}

/// Serves a put whose body waits for the word to go on.
fn served_patiently(alloc: Global, source: &mut Source<MemoryDisk>) -> Result<Served, StreamFault> {
    let written = Cell::new(0);
    let mut reader = Watched::new(PatientReader {
        head: HEAD,
        body: b"abc",
        written: &written,
    });
    let mut writer = Watched::new(CountingWriter { written: &written });
    serve_one(alloc, source, &mut reader, &mut writer, Moment::first())
}

#[test]
fn the_body_comes_behind_the_word_to_go_on(rt: HostRuntime) -> Result<(), Fail> {
    let mut source = new_source(rt.alloc())?;
    let found = served_patiently(rt.alloc(), &mut source);
    assert!(rt; found == Ok(Served::Answered(StatusCode::Created)));
    Ok(())
}
