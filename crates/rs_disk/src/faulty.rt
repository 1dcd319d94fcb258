//! A reader and a writer that fail from a chosen call on.
ghost use Rattle.std.specs.Prelude.{◌≡◌, ◌-◌, ◌<◌, ◌↔◌, Some, [], length, min, IsErr, IsOk, IfOk, IfErr, OnErr};
ghost use Rattle.std.specs.Io.{ReadsAtMost, WritesAtMost};
ghost use Rattle.std.specs.IoError.{error_kind};
ghost use Rattle.std.specs.Io.KnownBytes.{ReadConsumes, WriteAppends, Keeps};

use std::alloc::Global;
use std::io;
use std::io::{ErrorKind, Read, Write};

/// Returns its bytes in pieces, and fails from a chosen read on.
#[derive(Drop)]
pub struct FaultyReader<'a> {
    rest: &'a [u8],
    piece: usize,
    /// The number of further reads that succeed.
    reads_to_go: u64,
    ghost moves_on: { 0 < piece },
}

impl<'a> FaultyReader<'a> {
    ghost use Rattle.rs_disk.specs.Faulty.{unread, piece_of, reads_left};

    /// Makes a reader that returns at most `piece` of these bytes in a read; `piece` is at least 1.
    /// Reads are counted from 0, and every read from number `fail_at` on fails.
    pub fn new(bytes: &'a [u8], piece: usize, fail_at: u64) -> FaultyReader<'a>
        requires { 0 < piece }
        ensures unread { unread result ≡ bytes.now }
        ensures piece { piece_of result ≡ piece }
        ensures left { reads_left result ≡ fail_at }
    {
        FaultyReader {
            rest: bytes,
            piece,
            reads_to_go: fail_at,
        }
    }
}

impl Read for FaultyReader<'_> {
    ghost use Rattle.rs_disk.specs.Faulty.{unread, piece_of, reads_left};

    ghost remaining = { λ r. Some (unread r) };

    /// Reads the next bytes: as many as the piece, the buffer and the rest allow.
    ///
    /// # Errors
    /// Of the kind `Other` from read number `fail_at` on. This read returns no bytes.
    fn read(&mut self, buf: &mut [u8]) -> io::Result<usize>
        ensures bound { ReadsAtMost result buf.new }
        ensures bytes { ReadConsumes (Some (unread self.old)) (Some (unread self.new))
            result buf.new }
        ensures fails { IsErr result ↔ (reads_left self.old ≡ 0) }
        ensures kind { IfErr result (λ e. error_kind e ≡ ErrorKind.Other) }
        ensures count { IfOk result (λ n. n
            ≡ min (min (piece_of self.old) (length buf.old)) (length (unread self.old))) }
        ensures left { reads_left self.new ≡ reads_left self.old - 1 }
        ensures piece { piece_of self.new ≡ piece_of self.old }
    {
        if self.reads_to_go == 0 {
            return Err(io::Error::from(ErrorKind::Other));
        }
        self.reads_to_go -= 1;
        let all: &[u8] = self.rest;
        let n = self.piece.min(buf.len()).min(all.len());
        buf[..n].copy_from_slice(&all[..n]);
        self.rest = &all[n..];
        Ok(n)
    }
}

/// Keeps the bytes that it gets, and fails from a chosen write on.
#[derive(Drop)]
pub struct FaultyWriter {
    kept: Vec<u8>,
    /// The number of further writes that succeed.
    writes_to_go: u64,
}

impl FaultyWriter {
    ghost use Rattle.rs_disk.specs.Faulty.{kept_by, writes_left};

    /// Makes a writer without bytes. Writes are counted from 0, and every write from number
    /// `fail_at` on fails.
    pub fn new(alloc: Global, fail_at: u64) -> FaultyWriter
        ensures kept { kept_by result ≡ [] }
        ensures left { writes_left result ≡ fail_at }
    {
        FaultyWriter {
            kept: Vec::new(alloc),
            writes_to_go: fail_at,
        }
    }

    /// Returns the bytes of the writes that succeeded, in order.
    pub fn bytes(&self) -> &[u8]
        ensures { result.now ≡ kept_by self.now }
    {
        self.kept.as_slice()
    }
}

impl Write for FaultyWriter {
    ghost use Rattle.rs_disk.specs.Faulty.{kept_by, writes_left};

    ghost contents = { λ w. Some (kept_by w) };

    /// Takes all of the bytes.
    ///
    /// # Errors
    /// Of the kind `Other` from write number `fail_at` on, and before it of the kind `OutOfMemory`
    /// where memory is refused. A write that fails keeps no bytes, and counts as a write.
    fn write(&mut self, buf: &[u8]) -> io::Result<usize>
        ensures bound { WritesAtMost result buf.now }
        ensures bytes { WriteAppends (Some (kept_by self.old)) (Some (kept_by self.new))
            result buf.now }
        ensures fails { writes_left self.old ≡ 0 → IsErr result }
        ensures planned { writes_left self.old ≡ 0
            → IfErr result (λ e. error_kind e ≡ ErrorKind.Other) }
        ensures memory { 0 < writes_left self.old
            → IfErr result (λ e. error_kind e ≡ ErrorKind.OutOfMemory) }
        ensures all { IfOk result (λ n. n ≡ length buf.now) }
        ensures left { writes_left self.new ≡ writes_left self.old - 1 }
    {
        if self.writes_to_go == 0 {
            return Err(io::Error::from(ErrorKind::Other));
        }
        self.writes_to_go -= 1;
        self.kept.extend_from_slice(buf)?;
        Ok(buf.len())
    }

    /// Has no effect, always succeeds, and does not count as a write.
    fn flush(&mut self) -> io::Result<()>
        ensures bytes { Keeps (Some (kept_by self.old)) (Some (kept_by self.new)) }
        ensures left { writes_left self.new ≡ writes_left self.old }
        ensures ok { IsOk result }
    {
        Ok(())
    }
}
