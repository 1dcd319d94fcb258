//! A reader or a writer whose calls are counted where they are made.

ghost use Rattle.std.specs.Prelude.{◌≡◌};
ghost use Rattle.rs_io.specs.Counted.{IsCounted};

use std::io::{self, Read, Write};

/// A reader or a writer that counts its calls. The count stays at `u64::MAX` once it gets there.
///
/// Only the functions of this file reach the end inside, and they count every call of it: no other code can make a call
/// that is not counted.
#[derive(Debug, Drop)]
pub struct Counted<T> {
    end: T,
    calls: u64,
}

impl<T> Counted<T> {
    /// Wraps `end`, with no call counted yet.
    pub fn new(end: T) -> Counted<T>
        ensures { result ≡ record { end = end; calls = 0 } }
    {
        Counted { end, calls: 0 }
    }

    /// Returns the number of calls it has made.
    pub fn calls(&self) -> u64
        ensures { result ≡ self.now.calls }
    {
        self.calls
    }

    /// Returns a reference to the reader or the writer.
    pub fn get_ref(&self) -> &T
        ensures { result.now ≡ self.now.end }
    {
        &self.end
    }

    /// Returns the reader or the writer itself. The count is lost.
    pub fn into_inner(self) -> T
        ensures { result ≡ self.end }
    {
        self.end
    }
}

impl<R: Read> Counted<R> {
    ghost use Rattle.std.specs.Io.KnownBytes.{ReadConsumes};
    ghost use Rattle.std.specs.Io.{ReadsAtMost};

    /// Reads once.
    pub fn read(&mut self, buf: &mut [u8]) -> io::Result<usize>
        ensures bound { ReadsAtMost result buf.new }
        ensures bytes { ReadConsumes (R.remaining self.old.end) (R.remaining self.new.end) result buf.new }
        ensures counted { IsCounted self.old self.new }
    {
        self.calls = self.calls.saturating_add(1);
        self.end.read(buf)
    }
}

impl<W: Write> Counted<W> {
    ghost use Rattle.std.specs.Io.KnownBytes.{Keeps, WriteAppends};
    ghost use Rattle.std.specs.Io.{WritesAtMost};

    /// Writes once.
    pub fn write(&mut self, bytes: &[u8]) -> io::Result<usize>
        ensures bound { WritesAtMost result bytes.now }
        ensures bytes { WriteAppends (W.contents self.old.end) (W.contents self.new.end) result bytes.now }
        ensures counted { IsCounted self.old self.new }
    {
        self.calls = self.calls.saturating_add(1);
        self.end.write(bytes)
    }

    /// Flushes once.
    pub fn flush(&mut self) -> io::Result<()>
        ensures bytes { Keeps (W.contents self.old.end) (W.contents self.new.end) }
        ensures counted { IsCounted self.old self.new }
    {
        self.calls = self.calls.saturating_add(1);
        self.end.flush()
    }
}
