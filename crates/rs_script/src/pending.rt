//! The state of a script between two reads.

ghost use Rattle.std.specs.Prelude.{◌≡◌, [], ◌++◌, ℕ, List, None, OnOk, OnErr};
ghost use Rattle.rs_io.specs.Watch.{failures, EndFailed};
ghost use Rattle.rs_script.specs.Lines.{HasNoBreak, with_break};
ghost use Rattle.rs_script.specs.PartialLine.{KeepsLine};
ghost use Rattle.rs_script.specs.Progress.{stand, ComesTo, StopsBy, EndsLine, EndsAt, StopsAt};

use crate::answer::write_refusal;
use crate::bytes::position_of;
use crate::line::Line;
use crate::refusal::Refusal;
use crate::statement::BetweenLines;
use rs_disk::Disk;
use rs_io::{Watched, WriteFault};
use rs_store::Source;
use rs_time::Moment;
use std::alloc::Global;
use std::io::Write;

/// The state of a script between two reads.
#[derive(Drop)]
pub struct Pending {
    /// The state after the last whole line.
    pub between: BetweenLines,
    /// The line that is still coming.
    pub line: Line,
}

impl Pending {
    /// Returns the state before the first read. Commands come at the moment 0.
    pub fn new(alloc: Global) -> Pending
        ensures moment { result.between.moment ≡ 0 }
        ensures group { result.between.group ≡ None }
        ensures line { KeepsLine result.line [] }
    {
        Pending {
            between: BetweenLines {
                moment: Moment::first(),
                group: None,
            },
            line: Line::new(alloc),
        }
    }

    /// Takes the rest of a line: `run`, without a line feed, and the line feed after it.
    fn take_line<D: Disk, W: Write>(
        &mut self,
        alloc: Global,
        source: &mut Source<D>,
        run: &[u8],
        writer: &mut Watched<W>,
    ) -> Result<(), WriteFault>
        ensures ok { OnOk result (HasNoBreak run.now → ComesTo D.state W.contents
            (stand self.old source.old writer.old)
            (stand self.new source.new writer.new) (with_break run.now)) }
        ensures err { OnErr result (HasNoBreak run.now → StopsBy D.state W.contents
            (stand self.old source.old writer.old)
            (stand self.new source.new writer.new) (with_break run.now)) }
        ensures sound { OnOk result (failures writer.new ≡ failures writer.old) }
        ensures failed { OnErr result (EndFailed writer.old writer.new) }
    {
        self.line.extend(run);
        let content = self.line.content(true);
        let taken = self.between.take_content(alloc, source, content, writer);
        self.line.clear();
        taken
    }

    /// Takes more bytes of the input.
    ///
    /// # Errors
    ///
    /// [`WriteFault`] if the writer failed in an answer. No later statement is done.
    pub fn take_piece<D: Disk, W: Write>(
        &mut self,
        alloc: Global,
        source: &mut Source<D>,
        piece: &[u8],
        writer: &mut Watched<W>,
    ) -> Result<(), WriteFault>
        ensures ok { OnOk result (ComesTo D.state W.contents
            (stand self.old source.old writer.old)
            (stand self.new source.new writer.new) piece.now) }
        ensures err { OnErr result ((used : List ℕ) × (tail : List ℕ) × (piece.now ≡ used ++ tail)
            × StopsBy D.state W.contents (stand self.old source.old writer.old)
            (stand self.new source.new writer.new) used) }
        ensures failed { OnErr result (EndFailed writer.old writer.new) }
    {
        let mut rest = piece;
        while let Some(i) = position_of(b'\n', rest) {
            self.take_line(alloc, source, &rest[..i], writer)?;
            rest = &rest[i + 1..];
        }
        self.line.extend(rest);
        Ok(())
    }

    /// Takes the last line of the input, if no line feed ended it.
    fn take_last<D: Disk, W: Write>(
        &mut self,
        alloc: Global,
        source: &mut Source<D>,
        writer: &mut Watched<W>,
    ) -> Result<(), WriteFault>
        ensures ok { OnOk result (EndsLine D.state W.contents
            (stand self.old source.old writer.old) (stand self.new source.new writer.new)) }
        ensures err { OnErr result (StopsAt D.state W.contents
            (stand self.old source.old writer.old) (stand self.new source.new writer.new)) }
        ensures sound { OnOk result (failures writer.new ≡ failures writer.old) }
        ensures failed { OnErr result (EndFailed writer.old writer.new) }
    {
        if self.line.is_empty() {
            return Ok(());
        }
        let content = self.line.content(false);
        self.between.take_content(alloc, source, content, writer)
    }

    /// Takes the end of the input: its last line, and a refusal of a group that lacks a line then.
    ///
    /// # Errors
    ///
    /// [`WriteFault`] if the writer failed in an answer.
    pub fn take_end<D: Disk, W: Write>(
        &mut self,
        alloc: Global,
        source: &mut Source<D>,
        writer: &mut Watched<W>,
    ) -> Result<(), WriteFault>
        ensures ok { OnOk result (EndsAt D.state W.contents
            (stand self.old source.old writer.old) (stand self.new source.new writer.new)) }
        ensures err { OnErr result (StopsAt D.state W.contents
            (stand self.old source.old writer.old) (stand self.new source.new writer.new)) }
        ensures failed { OnErr result (EndFailed writer.old writer.new) }
    {
        self.take_last(alloc, source, writer)?;
        match self.between.group {
            Some(_) => write_refusal(Refusal::BadGroup, writer),
            None => Ok(()),
        }
    }
}
