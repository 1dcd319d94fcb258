//! Takes one line of a script: it is answered, or it belongs to a group.

ghost use Rattle.std.specs.Prelude.{◌≡◌, ◌≤◌, ◌∷◌, [], ℕ, List, Some, None, OnOk, OnErr};
ghost use Rattle.rs_io.specs.Watch.{failures, EndFailed, WritesOut};
ghost use Rattle.rs_script.specs.Outcomes.{LineGives};
ghost use Rattle.rs_script.specs.PartialLine.{IsContent};
ghost use Rattle.rs_script.specs.Progress.{HasAnswer, between, TakesLine};
ghost use Rattle.rs_script.specs.Session.{script_state};
ghost use Rattle.rs_script.specs.Statements.{group_size as size_of};
ghost use Rattle.rs_script.specs.Taken.{KeepsGroup};

use crate::answer::write_refusal;
use crate::execute::{answer_group, answer_line};
use crate::group::{Taking, size_begun, with_line};
use crate::line::Content;
use crate::refusal::Refusal;
use rs_disk::Disk;
use rs_io::{Watched, WriteFault};
use rs_items::ItemFault;
use rs_store::Source;
use rs_time::Moment;
use std::alloc::Global;
use std::io::Write;

/// Answers a line by itself.
fn answer_content<D: Disk, W: Write>(
    alloc: Global,
    source: &mut Source<D>,
    now: &mut Moment,
    content: Content<'_>,
    writer: &mut Watched<W>,
) -> Result<(), WriteFault>
    ensures answered { (line : List ℕ) → IsContent content.entry line → HasAnswer
        (LineGives D.state (script_state source.old now.old) line)
        (script_state source.new now.new) (WritesOut W.contents writer.old writer.new result) }
    ensures sound { OnOk result (failures writer.new ≡ failures writer.old) }
    ensures failed { OnErr result (EndFailed writer.old writer.new) }
{
    match content {
        Content::Bytes(bytes) => answer_line(alloc, source, now, bytes, writer),
        Content::Foreign => write_refusal(Refusal::Line(ItemFault::BadLine), writer),
        Content::Refused => write_refusal(Refusal::Line(ItemFault::NoMemory), writer),
        Content::TooLong => write_refusal(Refusal::LongLine, writer),
    }
}

/// Returns a new group of this many lines.
fn begin_group(alloc: Global, size: usize) -> Taking
    requires { 1 ≤ size }
    ensures { (first : List ℕ) → size_of first ≡ Some size
        → KeepsGroup (Some result) (first ∷ []) }
{
    Taking {
        later: size - 1,
        items: Ok(Vec::new(alloc)),
    }
}

/// The state of a script between two lines.
#[derive(Drop)]
pub struct BetweenLines {
    /// The moment at which commands come.
    pub moment: Moment,
    /// The group that lacks lines, if there is one.
    pub group: Option<Taking>,
}

impl BetweenLines {
    /// Takes a line outside a group: it begins a group, or is answered by itself.
    fn take_first<D: Disk, W: Write>(
        &mut self,
        alloc: Global,
        source: &mut Source<D>,
        content: Content<'_>,
        writer: &mut Watched<W>,
    ) -> Result<(), WriteFault>
        requires none { self.old.group ≡ None }
        ensures taken { (line : List ℕ) → IsContent content.entry line → TakesLine D.state
            (between source.old self.old) line (between source.new self.new)
            (WritesOut W.contents writer.old writer.new result) }
        ensures stopped { OnErr result (self.new.group ≡ None) }
        ensures sound { OnOk result (failures writer.new ≡ failures writer.old) }
        ensures failed { OnErr result (EndFailed writer.old writer.new) }
    {
        match size_begun(content) {
            Some(size) => {
                self.group = Some(begin_group(alloc, size));
                Ok(())
            }
            None => answer_content(alloc, source, &mut self.moment, content, writer),
        }
    }

    /// Takes a line. In a group it keeps the item of the line, and answers the group after its last line. Outside a
    /// group the line begins one, or is answered by itself.
    ///
    /// # Errors
    ///
    /// [`WriteFault`] if the writer failed in the answer. The request of the statement is done.
    pub fn take_content<D: Disk, W: Write>(
        &mut self,
        alloc: Global,
        source: &mut Source<D>,
        content: Content<'_>,
        writer: &mut Watched<W>,
    ) -> Result<(), WriteFault>
        ensures taken { (line : List ℕ) → IsContent content.entry line → TakesLine D.state
            (between source.old self.old) line (between source.new self.new)
            (WritesOut W.contents writer.old writer.new result) }
        ensures stopped { OnErr result (self.new.group ≡ None) }
        ensures sound { OnOk result (failures writer.new ≡ failures writer.old) }
        ensures failed { OnErr result (EndFailed writer.old writer.new) }
    {
        let Some(taking) = self.group.take() else {
            return self.take_first(alloc, source, content, writer);
        };
        let items = with_line(alloc, taking.items, content);
        if taking.later == 0 {
            return answer_group(source, self.moment, items, writer);
        }
        self.group = Some(Taking {
            later: taking.later - 1,
            items,
        });
        Ok(())
    }
}
