//! Readers and writers that fail at one call and work again after it.

use std::io;
use std::io::{ErrorKind, Read, Write};

/// The kinds of calls.
#[derive(Clone, Copy, PartialEq, Eq)]
pub enum Call {
    Read,
    Write,
    Flush,
}

/// A reader or a writer that fails at one call.
#[derive(Drop)]
pub struct FailsOnce<T> {
    inner: T,
    /// The number of calls before the one that fails. `None` after it.
    calls_before: Option<u32>,
    failed: Option<Call>,
}

impl<T> FailsOnce<T> {
    /// Makes an end that fails at this call, counted from 0.
    pub fn new(inner: T, fails_at: u32) -> FailsOnce<T> {
        FailsOnce {
            inner,
            calls_before: Some(fails_at),
            failed: None,
        }
    }

    /// Returns the kind of the call that failed, if one has.
    pub fn failed(&self) -> Option<Call> {
        self.failed
    }

    /// Counts a call, and fails if it is the call to fail.
    fn answer(&mut self, call: Call) -> io::Result<()> {
        self.calls_before = match self.calls_before {
            Some(0) => {
                self.failed = Some(call);
                None
            }
            Some(calls) => Some(calls - 1),
            None => return Ok(()),
        };
        match self.calls_before {
            None => Err(io::Error::from(ErrorKind::BrokenPipe)),
            Some(_) => Ok(()),
        }
    }
}

impl FailsOnce<Vec<u8>> {
    /// Returns the bytes that were written.
    pub fn bytes(&self) -> &[u8] {
        &self.inner
    }
}

impl<R: Read> Read for FailsOnce<R> {
    fn read(&mut self, buf: &mut [u8]) -> io::Result<usize> {
        self.answer(Call::Read)?;
        self.inner.read(buf)
    }
}

impl<W: Write> Write for FailsOnce<W> {
    fn write(&mut self, buf: &[u8]) -> io::Result<usize> {
        self.answer(Call::Write)?;
        self.inner.write(buf)
    }

    fn flush(&mut self) -> io::Result<()> {
        self.answer(Call::Flush)?;
        self.inner.flush()
    }
}
