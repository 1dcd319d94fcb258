//! The answer to a request.

ghost use Rattle.std.specs.Prelude.{◌≡◌, ◌/◌, ℕ, List, [], length, Option, Bool, true, Ok, OnOk, OnErr, IsErrOf, MatchResult};
ghost use Rattle.std.specs.Io.KnownBytes.{Keeps};
ghost use Rattle.httpdate.specs.Date.{unix_secs};
ghost use Rattle.rs_io.specs.Watch.{watched, seen_by, failures, is_flushed, StaysFlushed, EndFailed, FlushFailed, Wrote, ends_of};
ghost use Rattle.rs_http.specs.Turn.{turn};
ghost use Rattle.rs_http.specs.Serving.{PlanEnds, RequestEnds, TakesPart, preface_of};
ghost use Rattle.rs_http.specs.Responses.{go_on};
ghost use Rattle.rs_http.specs.Outcomes.{outcome_replied, GroupComesTo, Sends, Responds};

use crate::ask::{run, show_body, show_document};
use crate::body::read_body;
use crate::exchange::Exchange;
use crate::group::first_items;
use crate::outcome::{write_fault, write_refusal, write_reply};
use crate::request::{Request, RequestFault, RequestPlan};
use crate::response::Framing;
use crate::status::StatusCode;
use httpdate::HttpDate;
use rs_disk::Disk;
use rs_io::{StreamFault, Watched, WriteFault};
use rs_model::{Command, Group, Reply};
use rs_store::{Refusal, Source};
use rs_time::Moment;
use std::alloc::Global;
use std::io::{Read, Write};

/// Writes the response to a put that the source answered, unless its reader failed.
fn write_put<W: Write>(
    writer: &mut Watched<W>,
    framing: Framing,
    answered: Result<Reply, Refusal>,
) -> Result<StatusCode, StreamFault>
    ensures sends { ¬ IsErrOf answered Refusal.ReadFault
        → Sends W.contents writer.old writer.new framing (outcome_replied answered) result }
    ensures broken { IsErrOf answered Refusal.ReadFault → result ≡ Err StreamFault.Read }
    ensures silent { IsErrOf result StreamFault.Read → writer.new ≡ writer.old }
{
    match answered {
        Ok(reply) => write_reply(writer, framing, reply),
        Err(refusal) => match refusal {
            Refusal::ReadFault => Err(StreamFault::Read),
            _ => write_refusal(writer, framing, refusal),
        },
    }
}

/// Runs the items of a body's lines as one command, and writes the response.
fn ask_group<D: Disk, W: Write>(
    source: &mut Source<D>,
    body: &[u8],
    writer: &mut Watched<W>,
    exchange: Exchange,
) -> Result<StatusCode, StreamFault>
    ensures { (rest : Option (List ℕ)) → Responds W.contents writer.old writer.new exchange.framing
        (GroupComesTo (turn D.state source.old exchange.moment source.new)
        (length body.now) body.now rest) result }
{
    let items = match first_items(exchange.alloc, body) {
        Ok(items) => items,
        Err(fault) => return write_fault(writer, exchange.framing, RequestFault::Line(fault)),
    };
    let command = Command::Group(Group::new(items));
    run(source, &command, writer, exchange)
}

/// Reads the next `body_length` bytes of the input, runs the items of their lines, and writes the response.
fn group<D: Disk, R: Read, W: Write>(
    source: &mut Source<D>,
    body_length: u64,
    reader: &mut Watched<R>,
    writer: &mut Watched<W>,
    exchange: Exchange,
) -> Result<StatusCode, StreamFault>
    ensures ends { (waits : Bool) → PlanEnds (turn D.state source.old exchange.moment source.new)
        (Ok (RequestPlan.Group body_length waits)) exchange.framing
        (ends_of R.remaining reader.old reader.new W.contents writer.old writer.new) result }
    ensures silent { IsErrOf result StreamFault.Read → writer.new ≡ writer.old }
{
    match read_body(exchange.alloc, reader, body_length) {
        Ok(body) => ask_group(source, body.as_slice(), writer, exchange),
        Err(refusal) => match refusal {
            Refusal::ReadFault => Err(StreamFault::Read),
            _ => write_refusal(writer, exchange.framing, refusal),
        },
    }
}

/// Runs the plan of a request, and writes the response.
fn respond<D: Disk, R: Read, W: Write>(
    source: &mut Source<D>,
    reader: &mut Watched<R>,
    writer: &mut Watched<W>,
    plan: Result<RequestPlan, RequestFault>,
    exchange: Exchange,
) -> Result<StatusCode, StreamFault>
    ensures ends { PlanEnds (turn D.state source.old exchange.moment source.new) plan
        exchange.framing
        (ends_of R.remaining reader.old reader.new W.contents writer.old writer.new) result }
    ensures silent { IsErrOf result StreamFault.Read → writer.new ≡ writer.old }
{
    match plan {
        Err(fault) => write_fault(writer, exchange.framing, fault),
        Ok(RequestPlan::ShowBody(name)) => show_body(source, &name, writer, exchange.framing),
        Ok(RequestPlan::ShowDocument(doc)) => show_document(source, doc, writer, exchange.framing),
        Ok(RequestPlan::Delete(name)) => run(source, &Command::Delete { name }, writer, exchange),
        Ok(RequestPlan::Publish) => run(source, &Command::Publish, writer, exchange),
        Ok(
            RequestPlan::Put {
                name,
                kind,
                length,
                ..
            },
        ) => {
            let answered = source.put_from(&name, &kind, reader, length, exchange.moment);
            write_put(writer, exchange.framing, answered)
        }
        Ok(RequestPlan::Group { length, .. }) => group(source, length, reader, writer, exchange),
    }
}

/// Writes the word to go on, and flushes it.
fn write_go_on<W: Write>(writer: &mut Watched<W>) -> Result<(), WriteFault>
    ensures ok { OnOk result (Wrote W.contents writer.old writer.new go_on) }
    ensures fault { OnErr result (TakesPart
        (seen_by W.contents writer.old) (seen_by W.contents writer.new) [] go_on) }
    ensures failed { OnErr result (EndFailed writer.old writer.new) }
    ensures flushed { OnOk result (is_flushed writer.new ≡ true) }
{
    writer.put(b"HTTP/1.1 100 Continue\r\n\r\n")?;
    writer.flush()
}

/// Writes the bytes that are due before the source is asked.
fn write_preface<W: Write>(
    writer: &mut Watched<W>,
    plan: &Result<RequestPlan, RequestFault>,
) -> Result<(), WriteFault>
    ensures ok { OnOk result (Wrote W.contents writer.old writer.new (preface_of plan.now)) }
    ensures fault { OnErr result ((preface_of plan.now ≡ go_on) × TakesPart
        (seen_by W.contents writer.old) (seen_by W.contents writer.new) [] go_on) }
    ensures failed { OnErr result (EndFailed writer.old writer.new) }
    ensures flushed { OnOk result (StaysFlushed writer.old writer.new) }
{
    match plan {
        Ok(RequestPlan::Put { waits: true, .. }) | Ok(RequestPlan::Group { waits: true, .. }) => {
            write_go_on(writer)
        }
        _ => Ok(()),
    }
}

/// The date of a moment, cut to its second.
fn date_of(now: Moment) -> HttpDate
    ensures { unix_secs result ≡ now / 1000 }
{
    match HttpDate::from_unix_secs(now.ms() / 1000) {
        Ok(date) => date,
        Err(_) => unreachable!(),
    }
}

/// Flushes the writer, and returns the status.
fn finish<W: Write>(writer: &mut Watched<W>, status: StatusCode) -> Result<StatusCode, StreamFault>
    ensures value { MatchResult result
        (λ given. given ≡ status) (λ fault. fault ≡ StreamFault.Write) }
    ensures bytes { Keeps (W.contents (watched writer.old)) (W.contents (watched writer.new)) }
    ensures sound { OnOk result (failures writer.new ≡ failures writer.old) }
    ensures failed { OnErr result (EndFailed writer.old writer.new) }
    ensures flush_failed { OnErr result (FlushFailed writer.old writer.new) }
    ensures flushed { OnOk result (is_flushed writer.new ≡ true) }
{
    writer.flush()?;
    Ok(status)
}

/// Runs a request, writes the response, and returns its status.
///
/// # Errors
///
/// - [`StreamFault::Read`] if a read failed in the body of a put or of a group. The request is not done.
/// - [`StreamFault::Write`] if a call of the writer failed. The effect of the request remains.
pub(crate) fn answer<D: Disk, R: Read, W: Write>(
    alloc: Global,
    source: &mut Source<D>,
    reader: &mut Watched<R>,
    writer: &mut Watched<W>,
    request: Request,
    now: Moment,
) -> Result<StatusCode, StreamFault>
    ensures ends { RequestEnds (turn D.state source.old now source.new) request
        (ends_of R.remaining reader.old reader.new W.contents writer.old writer.new) result }
    ensures flushed { OnOk result (is_flushed writer.new ≡ true) }
    ensures waits { IsErrOf result StreamFault.Read → StaysFlushed writer.old writer.new }
{
    let framing = Framing {
        date: date_of(now),
        is_head: request.is_head,
    };
    let exchange = Exchange {
        alloc,
        moment: now,
        framing,
    };
    write_preface(writer, &request.plan)?;
    let status = respond(source, reader, writer, request.plan, exchange)?;
    finish(writer, status)
}
