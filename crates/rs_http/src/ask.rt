//! Asking the source, and writing its answer.

ghost use Rattle.std.specs.Prelude.{◌≡◌, ℕ, codes};
ghost use Rattle.rs_http.specs.Turn.{turn};
ghost use Rattle.rs_http.specs.Responses.{shown};
ghost use Rattle.rs_http.specs.Outcomes.{RunComesTo, ReadComesTo, document_shown, Sends, Responds};

use crate::exchange::Exchange;
use crate::outcome::{write_fault, write_refusal, write_reply, write_shown};
use crate::request::RequestFault;
use crate::response::{Framing, write_document_head};
use crate::status::StatusCode;
use rs_caps::Document;
use rs_disk::Disk;
use rs_io::{StreamFault, Watched};
use rs_lists::{Doc, View};
use rs_model::Command;
use rs_record::Name;
use rs_recovery::laws::documents_are_of_the_state;
use rs_store::Source;
use std::io::Write;

/// Gives the source a command, and writes the response.
pub(crate) fn run<D: Disk, W: Write>(
    source: &mut Source<D>,
    command: &Command,
    writer: &mut Watched<W>,
    exchange: Exchange,
) -> Result<StatusCode, StreamFault>
    ensures { Responds W.contents writer.old writer.new exchange.framing
        (RunComesTo (turn D.state source.old exchange.moment source.new) command.now) result }
{
    match source.command(command, exchange.moment) {
        Ok(reply) => write_reply(writer, exchange.framing, reply),
        Err(refusal) => write_refusal(writer, exchange.framing, refusal),
    }
}

/// Writes the response with a resource.
pub(crate) fn show_body<D: Disk, W: Write>(
    source: &mut Source<D>,
    name: &Name,
    writer: &mut Watched<W>,
    framing: Framing,
) -> Result<StatusCode, StreamFault>
    ensures { (now : ℕ) → Responds W.contents writer.old writer.new framing
        (ReadComesTo (turn D.state source.old now source.new) name.now) result }
{
    let bytes = match source.body(name) {
        Ok(bytes) => bytes,
        Err(refusal) => return write_refusal(writer, framing, refusal),
    };
    match source.kind(name) {
        Ok(kind) => write_shown(writer, framing, kind.bytes(), bytes.as_slice()),
        Err(refusal) => write_refusal(writer, framing, refusal),
    }
}

/// Writes the response with a document.
fn write_shown_document<V: View, W: Write>(
    document: &Document<'_, V>,
    writer: &mut Watched<W>,
    framing: Framing,
) -> Result<StatusCode, StreamFault>
    ensures { Sends W.contents writer.old writer.new framing
        (shown (codes "application/xml") document.now) result }
{
    write_document_head(writer, framing, document.len())?;
    if framing.is_head {
        return Ok(StatusCode::Ok);
    }
    document.write(writer)?;
    Ok(StatusCode::Ok)
}

/// Writes the response with a document.
pub(crate) fn show_document<D: Disk, W: Write>(
    source: &Source<D>,
    doc: Doc,
    writer: &mut Watched<W>,
    framing: Framing,
) -> Result<StatusCode, StreamFault>
    ensures { Responds W.contents writer.old writer.new framing
        (λ outcome. outcome ≡ document_shown D.state source.now doc) result }
{
    documents_are_of_the_state();
    let view = match source.view() {
        Ok(view) => view,
        Err(refusal) => return write_refusal(writer, framing, refusal),
    };
    match Document::of(&view, doc) {
        Some(document) => write_shown_document(&document, writer, framing),
        None => write_fault(writer, framing, RequestFault::NoSuchDocument),
    }
}
