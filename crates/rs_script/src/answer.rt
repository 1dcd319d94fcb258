//! The texts of answers.

ghost use Rattle.std.specs.Prelude.{◌≡◌, ◌++◌, codes, OnOk, OnErr};
ghost use Rattle.std.specs.Fmt.{decimal};
ghost use Rattle.std.specs.List.{flat_map};
ghost use Rattle.rs_io.specs.Watch.{EndFailed, FailedWithin, Wrote, WritesOut};
ghost use Rattle.rs_script.specs.Answers.{moment_end, reply_text, status_text, damaged_line, verified_text, outcome_text, word_of};
ghost use Rattle.rs_script.specs.Session.{refused};

use crate::refusal::Refusal;
use itoa::Buffer;
use rs_io::{Watched, WriteFault};
use rs_model::Reply;
use rs_record::Name;
use rs_store::Status;
use rs_time::Moment;
use std::io::Write;

/// Returns the word of a refusal, which follows `refused ` in an answer.
fn name_of(refusal: Refusal) -> &'static str
    ensures { result.now ≡ word_of refusal }
{
    match refusal {
        Refusal::Line(fault) => fault.word(),
        Refusal::LongLine => "LongLine",
        Refusal::BadMoment => "BadMoment",
        Refusal::BadGroup => "BadGroup",
        Refusal::NoSuchDocument => "NoSuchDocument",
        Refusal::Source(refusal) => refusal.word(),
    }
}

/// Writes the answer `refused NAME`.
pub fn write_refusal<W: Write>(refusal: Refusal, writer: &mut Watched<W>) -> Result<(), WriteFault>
    ensures written { WritesOut W.contents writer.old writer.new result
        (outcome_text (refused refusal)) }
    ensures failed { OnErr result (EndFailed writer.old writer.new) }
{
    let name = name_of(refusal);
    writer.put_all(&[b"refused ", name.as_bytes(), b"\n"])
}

/// Writes a word, the text of a moment and the end of the line.
fn write_word<W: Write>(
    word: &[u8],
    moment: Moment,
    writer: &mut Watched<W>,
) -> Result<(), WriteFault>
    ensures written { WritesOut W.contents writer.old writer.new result
        (word.now ++ moment_end moment) }
    ensures failed { OnErr result (EndFailed writer.old writer.new) }
{
    writer.put_all(&[word, &moment.text(), b"\n"])
}

/// Writes a word, a number, a space, the text of a moment and the end of the line.
fn write_numbered<W: Write>(
    word: &[u8],
    number: u64,
    moment: Moment,
    writer: &mut Watched<W>,
) -> Result<(), WriteFault>
    ensures written { WritesOut W.contents writer.old writer.new result
        ((word.now ++ (decimal number ++ codes " ")) ++ moment_end moment) }
    ensures failed { OnErr result (EndFailed writer.old writer.new) }
{
    let mut digits = Buffer::new();
    let number = digits.format(number).as_bytes();
    writer.put_all(&[word, number, b" ", &moment.text(), b"\n"])
}

/// Writes the answer to an accepted command.
pub fn write_reply<W: Write>(reply: Reply, writer: &mut Watched<W>) -> Result<(), WriteFault>
    ensures written { WritesOut W.contents writer.old writer.new result (reply_text reply) }
    ensures failed { OnErr result (EndFailed writer.old writer.new) }
{
    match reply {
        Reply::Created(moment) => write_word(b"created ", moment, writer),
        Reply::Updated(moment) => write_word(b"updated ", moment, writer),
        Reply::Deleted(moment) => write_word(b"deleted ", moment, writer),
        Reply::Published(number, moment) => write_numbered(b"published ", number, moment, writer),
        Reply::Grouped(count, moment) => write_numbered(b"grouped ", count as u64, moment, writer),
    }
}

/// Writes the answer to `status`.
pub fn write_status<W: Write>(status: Status, writer: &mut Watched<W>) -> Result<(), WriteFault>
    ensures written { WritesOut W.contents writer.old writer.new result (status_text status) }
    ensures failed { OnErr result (EndFailed writer.old writer.new) }
{
    let (mut held, mut kept, mut published) = (Buffer::new(), Buffer::new(), Buffer::new());
    writer.put_all(&[
        b"resources ",
        held.format(status.resources).as_bytes(),
        b" changes ",
        kept.format(status.changes).as_bytes(),
        b" publication ",
        published.format(status.publication).as_bytes(),
        b" last ",
        &status.last.text(),
        b"\n",
    ])
}

/// Writes `damaged NAME` and the end of the line.
fn write_damaged_name<W: Write>(name: &Name, writer: &mut Watched<W>) -> Result<(), WriteFault>
    ensures written { WritesOut W.contents writer.old writer.new result (damaged_line name.now) }
    ensures failed { OnErr result (EndFailed writer.old writer.new) }
{
    writer.put_all(&[b"damaged ", name.bytes(), b"\n"])
}

/// Writes `damaged NAME` and the end of the line for every name.
fn write_damaged<W: Write>(names: &[Name], writer: &mut Watched<W>) -> Result<(), WriteFault>
    ensures ok { OnOk result (Wrote W.contents writer.old writer.new
        (flat_map damaged_line names.now)) }
    ensures fault { OnErr result (FailedWithin W.contents writer.old writer.new
        (flat_map damaged_line names.now)) }
    ensures failed { OnErr result (EndFailed writer.old writer.new) }
{
    for name in names {
        write_damaged_name(name, writer)?;
    }
    Ok(())
}

/// Writes the number of sound bodies.
fn write_sound<W: Write>(sound: usize, writer: &mut Watched<W>) -> Result<(), WriteFault>
    ensures written { WritesOut W.contents writer.old writer.new result
        (codes "verified " ++ (decimal sound ++ codes "\n")) }
    ensures failed { OnErr result (EndFailed writer.old writer.new) }
{
    let mut digits = Buffer::new();
    writer.put_all(&[b"verified ", digits.format(sound).as_bytes(), b"\n"])
}

/// Writes the answer to `verify`: the names of the damaged bodies, and the number of sound ones.
pub fn write_verified<W: Write>(
    names: &[Name],
    sound: usize,
    writer: &mut Watched<W>,
) -> Result<(), WriteFault>
    ensures written { WritesOut W.contents writer.old writer.new result
        (verified_text names.now sound) }
    ensures failed { OnErr result (EndFailed writer.old writer.new) }
{
    write_damaged(names, writer)?;
    write_sound(sound, writer)
}
