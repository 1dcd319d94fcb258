//! A line that is still coming.

ghost use Rattle.std.specs.Prelude.{◌≡◌, [], ◌++◌, ◌-◌, ◌+◌, ◌<◌, ◌≤◌, IsTrue, IsFalse, ℕ, List};
ghost use Rattle.rs_script.specs.Lines.{line_limit, line_of};

use crate::request::begins_request;
use smallvec::SmallVec;
use std::alloc::Global;

/// The longest line, in bytes, without its line feed and a carriage return before that.
pub const LINE_LIMIT: usize = 33_600_000;

/// A line of this many bytes is longer than any line of one field, even with a carriage return at its end.
const FOREIGN_LENGTH: usize = 9;

/// The kept part of a line.
#[derive(Clone, Copy, Debug, PartialEq, Eq)]
pub enum Kept {
    /// All bytes that have come.
    Whole,
    /// Their number and the last of them. They begin no request, whatever follows.
    Foreign,
    /// Their number and the last of them. There was no memory for them.
    Refused,
    /// No bytes. They are more than a line may have.
    TooLong,
}

/// A whole line.
#[derive(Clone, Copy, Debug)]
pub enum Content<'a> {
    /// These bytes, no more than a line may have.
    Bytes(&'a [u8]),
    /// A line that is no request.
    Foreign,
    /// A line for which there was no memory.
    Refused,
    /// More bytes than a line may have.
    TooLong,
}

/// A line that is still coming. At most [`LINE_LIMIT`] + 1 bytes of it are kept.
#[derive(Drop)]
pub struct Line {
    /// The bytes that have come, while all are kept. There is always room for nine.
    pub bytes: SmallVec<u8, 9>,
    /// The number of bytes that have come, unless the line is too long.
    pub count: usize,
    /// The last byte, or 0.
    pub last: u8,
    /// The kept part.
    pub kept: Kept,
    pub ghost bounded: { count ≤ line_limit + 1 },
    pub ghost roomy: { 9 ≤ bytes.capacity },
}

impl Line {
    ghost use Rattle.std.specs.Prelude.{length, slice_index};
    ghost use Rattle.rs_script.specs.PartialLine.{KeepsLine, KeepsLineAs, CountsLine, IsContent};

    /// Returns a line without bytes.
    pub fn new(alloc: Global) -> Line
        ensures { KeepsLine result [] }
    {
        Line {
            bytes: SmallVec::new(alloc),
            count: 0,
            last: 0,
            kept: Kept::Whole,
        }
    }

    /// Returns whether no byte has come.
    pub fn is_empty(&self) -> bool
        ensures empty { IsTrue result → (raw : List ℕ) → KeepsLine self.now raw → raw ≡ [] }
        ensures some { IsFalse result → (raw : List ℕ) → KeepsLine self.now raw → 0 < length raw }
    {
        self.kept == Kept::Whole && self.bytes.is_empty()
    }

    /// Begins a new line, after a line feed.
    pub fn clear(&mut self)
        ensures { KeepsLine self.new [] }
    {
        self.bytes.clear();
        self.count = 0;
        self.last = 0;
        self.kept = Kept::Whole;
    }

    /// Adds bytes without a line feed.
    pub fn extend(&mut self, run: &[u8])
        ensures { (raw : List ℕ) → KeepsLine self.old raw → KeepsLine self.new (raw ++ run.now) }
    {
        let Some(last) = run.last() else {
            return;
        };
        if run.len() > LINE_LIMIT + 1 - self.count {
            self.bytes.clear();
            self.kept = Kept::TooLong;
            return;
        }
        match self.kept {
            Kept::Whole => self.keep(run, *last),
            Kept::Foreign | Kept::Refused => {
                self.count += run.len();
                self.last = *last;
            }
            Kept::TooLong => {}
        }
    }

    /// Keeps `run`, which ends in `last`, if there is memory and the line can be a request.
    fn keep(&mut self, run: &[u8], last: u8)
        requires room { self.old.count + length run.now ≤ line_limit + 1 }
        requires some { 0 < length run.now }
        requires last { last ≡ slice_index run.now (length run.now - 1) }
        ensures { (raw : List ℕ) → KeepsLineAs self.old Kept.Whole raw
            → KeepsLine self.new (raw ++ run.now) }
    {
        self.count += run.len();
        self.last = last;
        if self.bytes.extend_from_slice(run).is_err() {
            self.bytes.clear();
            self.kept = Kept::Refused;
            return;
        }
        if self.bytes.len() >= FOREIGN_LENGTH && !begins_request(self.bytes.as_slice()) {
            self.bytes.clear();
            self.kept = Kept::Foreign;
            return;
        }
        self.kept = Kept::Whole;
    }

    /// Returns the whole line. If a line feed ended it (`has_break`), a carriage return before that is left out.
    pub fn content(&self, has_break: bool) -> Content<'_>
        ensures { (raw : List ℕ) → KeepsLine self.now raw
            → IsContent result (line_of has_break raw) }
    {
        match self.kept {
            Kept::Whole => {
                let bytes = line_bytes(self.bytes.as_slice(), has_break);
                if bytes.len() > LINE_LIMIT {
                    Content::TooLong
                } else {
                    Content::Bytes(bytes)
                }
            }
            Kept::Foreign if self.len(has_break) <= LINE_LIMIT => Content::Foreign,
            Kept::Refused if self.len(has_break) <= LINE_LIMIT => Content::Refused,
            Kept::Foreign | Kept::Refused | Kept::TooLong => Content::TooLong,
        }
    }

    /// Returns the number of bytes of the whole line.
    fn len(&self, has_break: bool) -> usize
        ensures { (raw : List ℕ) → CountsLine self.now raw
            → result ≡ length (line_of has_break raw) }
    {
        if has_break && self.last == b'\r' && self.count > 0 {
            self.count - 1
        } else {
            self.count
        }
    }
}

/// Returns the line of these bytes. If a line feed ended it (`has_break`), a carriage return at its end is left out.
fn line_bytes(bytes: &[u8], has_break: bool) -> &[u8]
    ensures { result.now ≡ line_of has_break bytes.now }
{
    match bytes {
        [line @ .., b'\r'] if has_break => line,
        _ => bytes,
    }
}
