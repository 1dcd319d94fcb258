//! A reader or a writer that counts its calls and its faults, stays failed once it has failed, and knows whether all
//! bytes that it took were flushed.
ghost use Rattle.std.specs.Prelude.{◌≡◌, ◌+◌, ◌<◌, ◌≤◌, [], true, false, length, take, decimal, IfOk, OnOk, OnErr, IfSome, IsTrue, MatchOption};
ghost use Rattle.std.specs.List.{flat_map};
ghost use Rattle.std.specs.Io.KnownBytes.{IsAtEnd, Keeps};

use crate::counted::Counted;
use crate::fault::{ReadFault, WriteFault};
use itoa::Buffer;
use std::io::{ErrorKind, Read, Write};

// The most bytes of one write. A socket takes a large body faster in pieces of this size than at once.
const LARGEST_WRITE: usize = 262_144;

// The number of times that one call retries an interrupted write.
const MOST_INTERRUPTIONS: u32 = 100;

/// A reader or a writer that counts its calls and its faults, and knows whether all bytes put into it have been
/// flushed.
///
/// An end that has failed stays failed: every later call answers the fault, and makes no call of the reader or writer
/// inside. A call that answers an error counts once. A count stays at `u64::MAX` once it gets there. Only an
/// interrupted write is retried: [`Watched::put`] retries 100 of them in one call, and the next one is a failure.
#[derive(Debug, Drop)]
pub struct Watched<T> {
    inner: Counted<T>,
    failures: u64,
    failed_flushes: u64,
    holds_back: bool,
}

impl<T> Watched<T> {
    ghost use Rattle.rs_io.specs.Watch.{watched, calls, failures, is_broken, is_flushed, PutFailed, IsCalledOnce};

    /// Watches `inner` from here on. Earlier failures do not count, and bytes written before count as flushed.
    pub fn new(inner: T) -> Watched<T>
        ensures inner { watched result ≡ inner }
        ensures calls { calls result ≡ 0 }
        ensures failures { failures result ≡ record { all = 0; flushes = 0 } }
        ensures flushed { is_flushed result ≡ true }
    {
        Watched {
            inner: Counted::new(inner),
            failures: 0,
            failed_flushes: 0,
            holds_back: false,
        }
    }

    /// Returns the number of calls it has made of the reader or writer inside, `u64::MAX` at most.
    pub fn calls(&self) -> u64
        ensures { result ≡ calls self.now }
    {
        self.inner.calls()
    }

    /// Returns the number of calls that have answered a fault, `u64::MAX` at most.
    pub fn failures(&self) -> u64
        ensures { result ≡ (failures self.now).all }
    {
        self.failures
    }

    /// Returns whether a call has failed, so that every later call fails too.
    pub fn is_broken(&self) -> bool
        ensures { result ≡ is_broken self.now }
    {
        self.failures != 0
    }

    /// Returns whether a flush has succeeded since the last put, or there was no put since [`Watched::new`]. A put
    /// counts even if it fails, since it may leave bytes.
    pub fn is_flushed(&self) -> bool
        ensures { result ≡ is_flushed self.now }
    {
        !self.holds_back
    }

    /// Returns a reference to the reader or the writer.
    pub fn get_ref(&self) -> &T
        ensures { result.now ≡ watched self.now }
    {
        self.inner.get_ref()
    }

    /// Returns the reader or the writer itself. The counts are lost.
    pub fn into_inner(self) -> T
        ensures { result ≡ watched self }
    {
        self.inner.into_inner()
    }

    /// Counts a fault.
    fn count_failure(&mut self)
        ensures inner { watched self.new ≡ watched self.old }
        ensures calls { calls self.new ≡ calls self.old }
        ensures failed { PutFailed self.old self.new }
        ensures once { (failures self.new).all ≤ (failures self.old).all + 1 }
        ensures flushed { is_flushed self.new ≡ is_flushed self.old }
    {
        self.failures = self.failures.saturating_add(1);
    }
}

impl<R: Read> Watched<R> {
    ghost use Rattle.rs_io.specs.Watch.{watched, calls, failures, is_broken, is_flushed, EndFailed, IsCalledOnce, IsRefused, Took};

    /// Reads once into the front of `buf`, and returns the number of bytes read.
    ///
    /// It reads no byte only at the end of the input, or if `buf` has no room.
    ///
    /// # Errors
    ///
    /// [`ReadFault`] if the read fails, or an earlier call failed. No byte is lost then.
    pub fn read(&mut self, buf: &mut [u8]) -> Result<usize, ReadFault>
        ensures bound { IfOk result (λ n. n ≤ length buf.new) }
        ensures ok { IfOk result (λ n. Took R.remaining self.old self.new (take n buf.new)) }
        ensures end { IfOk result (λ n. n ≡ 0 → 0 < length buf.new
            → IsAtEnd (R.remaining (watched self.new))) }
        ensures err { OnErr result
            (Keeps (R.remaining (watched self.old)) (R.remaining (watched self.new))) }
        ensures failed { OnErr result (EndFailed self.old self.new) }
        ensures once { (failures self.new).all ≤ (failures self.old).all + 1 }
        ensures flushed { is_flushed self.new ≡ is_flushed self.old }
        ensures broken { IsTrue (is_broken self.old) → IsRefused self.old self.new result }
        ensures called { is_broken self.old ≡ false → IsCalledOnce self.old self.new }
    {
        if self.is_broken() {
            self.count_failure();
            return Err(ReadFault);
        }
        match self.inner.read(buf) {
            Ok(count) => Ok(count),
            Err(_) => {
                self.count_failure();
                Err(ReadFault)
            }
        }
    }
}

impl<W: Write> Watched<W> {
    ghost use Rattle.rs_io.specs.Watch.{watched, calls, failures, is_broken, is_flushed, EndFailed, FlushFailed, IsCalledOnce, IsRefused, FailedWithin, Wrote, WritesOut};

    /// Writes all of `bytes`.
    ///
    /// It retries an interrupted write, up to 100 times in one call.
    ///
    /// # Errors
    ///
    /// [`WriteFault`] if a write fails, takes no byte, or is interrupted once too often, or an earlier call of the
    /// writer failed. The writer has then taken a beginning of the bytes, and no other byte.
    pub fn put(&mut self, bytes: &[u8]) -> Result<(), WriteFault>
        ensures ok { OnOk result (Wrote W.contents self.old self.new bytes.now) }
        ensures fault { OnErr result (FailedWithin W.contents self.old self.new bytes.now) }
        ensures failed { OnErr result (EndFailed self.old self.new) }
        ensures once { (failures self.new).all ≤ (failures self.old).all + 1 }
        ensures unflushed { is_flushed self.new ≡ false }
        ensures broken { IsTrue (is_broken self.old) → IsRefused self.old self.new result }
        ensures calls { calls self.old ≤ calls self.new }
        ensures few { calls self.new ≤ calls self.old + length bytes.now + 101 }
    {
        self.holds_back = true;
        if self.is_broken() {
            self.count_failure();
            return Err(WriteFault);
        }
        let mut written = 0;
        let mut interruptions = 0;
        while written < bytes.len() {
            match self.put_some(&bytes[written..])? {
                Some(count) => written += count,
                None if interruptions < MOST_INTERRUPTIONS => interruptions += 1,
                None => {
                    self.count_failure();
                    return Err(WriteFault);
                }
            }
        }
        Ok(())
    }

    /// Writes once, at most `LARGEST_WRITE` of the bytes. Returns the number of bytes that the writer took, or `None`
    /// if the write was interrupted.
    fn put_some(&mut self, bytes: &[u8]) -> Result<Option<usize>, WriteFault>
        requires { 0 < length bytes.now }
        ensures some { IfOk result (λ took. IfSome took (λ count. 0 < count)) }
        ensures most { IfOk result (λ took. IfSome took (λ count. count ≤ length bytes.now)) }
        ensures ok { IfOk result (λ took. MatchOption took
            (Wrote W.contents self.old self.new [])
            (λ count. Wrote W.contents self.old self.new (take count bytes.now))) }
        ensures fault { OnErr result (FailedWithin W.contents self.old self.new bytes.now) }
        ensures once { (failures self.new).all ≤ (failures self.old).all + 1 }
        ensures flushed { is_flushed self.new ≡ is_flushed self.old }
        ensures called { IsCalledOnce self.old self.new }
    {
        let first = &bytes[..bytes.len().min(LARGEST_WRITE)];
        match self.inner.write(first) {
            Ok(count) if count > 0 => return Ok(Some(count)),
            Err(error) if error.kind() == ErrorKind::Interrupted => return Ok(None),
            _ => {}
        }
        self.count_failure();
        Err(WriteFault)
    }

    /// Writes a number in decimal, with no leading zero.
    ///
    /// # Errors
    ///
    /// [`WriteFault`] as from [`Watched::put`]. The writer has then taken a beginning of the digits.
    pub fn put_number(&mut self, number: u64) -> Result<(), WriteFault>
        ensures ok { OnOk result (Wrote W.contents self.old self.new (decimal number)) }
        ensures fault { OnErr result (FailedWithin W.contents self.old self.new (decimal number)) }
        ensures failed { OnErr result (EndFailed self.old self.new) }
        ensures once { (failures self.new).all ≤ (failures self.old).all + 1 }
        ensures unflushed { is_flushed self.new ≡ false }
        ensures broken { IsTrue (is_broken self.old) → IsRefused self.old self.new result }
        ensures calls { calls self.old ≤ calls self.new }
    {
        let mut digits = Buffer::new();
        self.put(digits.format(number).as_bytes())
    }

    /// Writes these pieces, one after another.
    ///
    /// # Errors
    ///
    /// [`WriteFault`] as from [`Watched::put`]. The writer has then taken a beginning of the joined
    /// pieces.
    pub fn put_all(&mut self, pieces: &[&[u8]]) -> Result<(), WriteFault>
        ensures ok { OnOk result (Wrote W.contents self.old self.new
            (flat_map (λ piece. piece.now) pieces.now)) }
        ensures fault { OnErr result (FailedWithin W.contents self.old self.new
            (flat_map (λ piece. piece.now) pieces.now)) }
        ensures failed { OnErr result (EndFailed self.old self.new) }
        ensures unflushed { 0 < length pieces.now → is_flushed self.new ≡ false }
        ensures untouched { pieces.now ≡ [] → is_flushed self.new ≡ is_flushed self.old }
        ensures broken { IsTrue (is_broken self.old) → 0 < length pieces.now
            → IsRefused self.old self.new result }
        ensures calls { calls self.old ≤ calls self.new }
    {
        for piece in pieces {
            self.put(piece)?;
        }
        Ok(())
    }

    /// Flushes the writer. A flush neither adds nor drops a byte, even if it fails.
    ///
    /// # Errors
    ///
    /// [`WriteFault`] if the flush fails, or an earlier call of the writer failed.
    pub fn flush(&mut self) -> Result<(), WriteFault>
        ensures bytes { Keeps (W.contents (watched self.old)) (W.contents (watched self.new)) }
        ensures sound { OnOk result (failures self.new ≡ failures self.old) }
        ensures failed { OnErr result (EndFailed self.old self.new) }
        ensures flush_failed { OnErr result (FlushFailed self.old self.new) }
        ensures once { (failures self.new).all ≤ (failures self.old).all + 1 }
        ensures flushed { OnOk result (is_flushed self.new ≡ true) }
        ensures unflushed { OnErr result (is_flushed self.new ≡ is_flushed self.old) }
        ensures broken { IsTrue (is_broken self.old) → IsRefused self.old self.new result }
        ensures called { is_broken self.old ≡ false → IsCalledOnce self.old self.new }
    {
        if !self.is_broken() {
            if let Ok(()) = self.inner.flush() {
                self.holds_back = false;
                return Ok(());
            }
        }
        self.count_failure();
        self.failed_flushes = self.failed_flushes.saturating_add(1);
        Err(WriteFault)
    }
}
