//! Does the request of one line or one group, and writes the answer.

ghost use Rattle.std.specs.Prelude.{◌≡◌, ℕ, List, Ok, OnOk, OnErr};
ghost use Rattle.rs_io.specs.Watch.{failures, EndFailed, WritesOut};
ghost use Rattle.rs_script.specs.Progress.{HasAnswer};
ghost use Rattle.rs_script.specs.Outcomes.{AskedGives, AnswerGives, GroupGives};
ghost use Rattle.rs_script.specs.Requests.{request_of};
ghost use Rattle.rs_script.specs.Room.{TakesRoom};
ghost use Rattle.rs_script.specs.Session.{script_state};
ghost use Rattle.rs_script.specs.Taken.{KeepsItems};
ghost use Rattle.rs_script.specs.declared.request.Request.TheVariants.{Run, Document as Listed, Body as Shown, Status as Counted, Verify as Verified};

use crate::answer::{write_refusal, write_reply, write_status, write_verified};
use crate::refusal::Refusal;
use crate::request::{Request, parse_request};
use crate::show::{write_shown, write_shown_document};
use rs_caps::Document;
use rs_disk::Disk;
use rs_io::{Watched, WriteFault};
use rs_lists::Doc;
use rs_model::{Command, Group, Item};
use rs_record::Name;
use rs_recovery::laws::documents_are_of_the_state;
use rs_store::Source;
use rs_time::Moment;
use std::alloc::Global;
use std::io::Write;

/// Answers `put`, `delete`, `publish` or a group.
fn run_command<D: Disk, W: Write>(
    source: &mut Source<D>,
    command: &Command,
    now: Moment,
    writer: &mut Watched<W>,
) -> Result<(), WriteFault>
    ensures answered { HasAnswer
        (AskedGives D.state (script_state source.old now) (Ok (Run command.now)))
        (script_state source.new now) (WritesOut W.contents writer.old writer.new result) }
    ensures failed { OnErr result (EndFailed writer.old writer.new) }
{
    match source.command(command, now) {
        Ok(reply) => write_reply(reply, writer),
        Err(refusal) => write_refusal(Refusal::Source(refusal), writer),
    }
}

/// Answers a group of these items, or refuses it for the first fault of a line.
///
/// # Errors
///
/// [`WriteFault`] if the writer failed in the answer. The request of the group is done.
pub fn answer_group<D: Disk, W: Write>(
    source: &mut Source<D>,
    now: Moment,
    items: Result<Vec<Item>, Refusal>,
    writer: &mut Watched<W>,
) -> Result<(), WriteFault>
    ensures answered { (lines : List (List ℕ)) → KeepsItems items lines
        → HasAnswer (GroupGives D.state (script_state source.old now) lines)
        (script_state source.new now) (WritesOut W.contents writer.old writer.new result) }
    ensures sound { OnOk result (failures writer.new ≡ failures writer.old) }
    ensures failed { OnErr result (EndFailed writer.old writer.new) }
{
    match items {
        Ok(items) => {
            let command = Command::Group(Group::new(items));
            run_command(source, &command, now, writer)
        }
        Err(refusal) => write_refusal(refusal, writer),
    }
}

/// Answers `show PATH` of a document.
fn show_document<D: Disk, W: Write>(
    source: &Source<D>,
    doc: Doc,
    now: Moment,
    writer: &mut Watched<W>,
) -> Result<(), WriteFault>
    ensures answered { HasAnswer
        (AskedGives D.state (script_state source.now now) (Ok (Listed doc)))
        (script_state source.now now) (WritesOut W.contents writer.old writer.new result) }
    ensures failed { OnErr result (EndFailed writer.old writer.new) }
{
    documents_are_of_the_state();
    let view = match source.view() {
        Ok(view) => view,
        Err(refusal) => return write_refusal(Refusal::Source(refusal), writer),
    };
    match Document::of(&view, doc) {
        Some(document) => write_shown_document(&document, writer),
        None => write_refusal(Refusal::NoSuchDocument, writer),
    }
}

/// Answers `show /resource/NAME`.
fn show_body<D: Disk, W: Write>(
    source: &mut Source<D>,
    name: &Name,
    now: Moment,
    writer: &mut Watched<W>,
) -> Result<(), WriteFault>
    ensures answered { HasAnswer
        (AskedGives D.state (script_state source.old now) (Ok (Shown name.now)))
        (script_state source.new now) (WritesOut W.contents writer.old writer.new result) }
    ensures failed { OnErr result (EndFailed writer.old writer.new) }
{
    match source.body(name) {
        Ok(bytes) => write_shown(bytes.as_slice(), writer),
        Err(refusal) => write_refusal(Refusal::Source(refusal), writer),
    }
}

/// Answers `status`.
fn show_status<D: Disk, W: Write>(
    source: &Source<D>,
    now: Moment,
    writer: &mut Watched<W>,
) -> Result<(), WriteFault>
    ensures answered { HasAnswer
        (AskedGives D.state (script_state source.now now) (Ok Counted))
        (script_state source.now now) (WritesOut W.contents writer.old writer.new result) }
    ensures failed { OnErr result (EndFailed writer.old writer.new) }
{
    match source.status() {
        Ok(status) => write_status(status, writer),
        Err(refusal) => write_refusal(Refusal::Source(refusal), writer),
    }
}

/// Answers `verify`.
fn show_verified<D: Disk, W: Write>(
    source: &mut Source<D>,
    now: Moment,
    writer: &mut Watched<W>,
) -> Result<(), WriteFault>
    ensures answered { HasAnswer
        (AskedGives D.state (script_state source.old now) (Ok Verified))
        (script_state source.new now) (WritesOut W.contents writer.old writer.new result) }
    ensures failed { OnErr result (EndFailed writer.old writer.new) }
{
    let held = match source.status() {
        Ok(status) => status.resources as usize,
        Err(closed) => return write_refusal(Refusal::Source(closed), writer),
    };
    match source.verify() {
        Ok(names) => write_verified(names.as_slice(), held - names.len(), writer),
        Err(refusal) => write_refusal(Refusal::Source(refusal), writer),
    }
}

/// Answers a request. An `at` changes `now`, the moment at which commands come.
fn answer_request<D: Disk, W: Write>(
    source: &mut Source<D>,
    now: &mut Moment,
    request: Request,
    writer: &mut Watched<W>,
) -> Result<(), WriteFault>
    ensures answered { HasAnswer
        (AskedGives D.state (script_state source.old now.old) (Ok request))
        (script_state source.new now.new) (WritesOut W.contents writer.old writer.new result) }
    ensures failed { OnErr result (EndFailed writer.old writer.new) }
{
    match request {
        Request::At(moment) => {
            *now = moment;
            writer.put(b"ok\n")
        }
        Request::Run(command) => run_command(source, &command, *now, writer),
        Request::Document(doc) => show_document(source, doc, *now, writer),
        Request::Body(name) => show_body(source, &name, *now, writer),
        Request::Status => show_status(source, *now, writer),
        Request::Verify => show_verified(source, *now, writer),
    }
}

/// Answers `line`, which is not too long. An `at` changes `now`, the moment at which commands come.
///
/// # Errors
///
/// [`WriteFault`] if the writer failed in the answer. The request of the line is done.
pub fn answer_line<D: Disk, W: Write>(
    alloc: Global,
    source: &mut Source<D>,
    now: &mut Moment,
    line: &[u8],
    writer: &mut Watched<W>,
) -> Result<(), WriteFault>
    ensures answered { HasAnswer (AnswerGives D.state
        (script_state source.old now.old) (request_of line.now) (TakesRoom line.now))
        (script_state source.new now.new) (WritesOut W.contents writer.old writer.new result) }
    ensures failed { OnErr result (EndFailed writer.old writer.new) }
{
    match parse_request(alloc, line) {
        Ok(request) => answer_request(source, now, request, writer),
        Err(refusal) => write_refusal(refusal, writer),
    }
}
