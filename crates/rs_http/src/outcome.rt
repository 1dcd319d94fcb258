//! The responses to the outcomes of requests.

ghost use Rattle.std.specs.Prelude.{◌≡◌, ◌≤◌, length, OnErr};
ghost use Rattle.rs_io.specs.Watch.{EndFailed, WritesOut};
ghost use Rattle.rs_http.specs.Responses.{fault_status as status_of_fault, fault_word as word_of_fault, refusal_status as status_of_refusal, allow_of, reply_line, content_lines, framed, plain};
ghost use Rattle.rs_http.specs.Responses.{faulted, replied, shown, refused};
ghost use Rattle.rs_http.specs.Outcomes.{Sends};

use crate::request::RequestFault;
use crate::response::{Framing, write_bare, write_response, write_text, write_word};
use crate::status::StatusCode;
use crate::target::Methods;
use itoa::Buffer;
use rs_io::{StreamFault, Watched, WriteFault};
use rs_items::ItemFault;
use rs_model::Reply;
use rs_store::Refusal;
use rs_time::Moment;
use std::io::Write;

/// Returns the status of a request that is refused before the source sees it.
fn fault_status(fault: RequestFault) -> StatusCode
    ensures { result ≡ status_of_fault fault }
{
    match fault {
        RequestFault::BadHead => StatusCode::BadRequest,
        RequestFault::BadHost => StatusCode::BadRequest,
        RequestFault::BadLength => StatusCode::BadRequest,
        RequestFault::NoSuchDocument => StatusCode::NotFound,
        RequestFault::BadMethod(_) => StatusCode::MethodNotAllowed,
        RequestFault::NoLength => StatusCode::LengthRequired,
        RequestFault::TooLong => StatusCode::ContentTooLarge,
        RequestFault::HeadTooLong => StatusCode::RequestHeaderFieldsTooLarge,
        RequestFault::ManyFields => StatusCode::RequestHeaderFieldsTooLarge,
        RequestFault::TransferEncoding => StatusCode::NotImplemented,
        RequestFault::Line(ItemFault::NoMemory) => StatusCode::ServiceUnavailable,
        RequestFault::Line(_) => StatusCode::BadRequest,
    }
}

/// Returns the word of a fault.
fn fault_word(fault: RequestFault) -> &'static str
    ensures { result.now ≡ word_of_fault fault }
{
    match fault {
        RequestFault::HeadTooLong => "HeadTooLong",
        RequestFault::BadHead => "BadHead",
        RequestFault::ManyFields => "ManyFields",
        RequestFault::BadHost => "BadHost",
        RequestFault::TransferEncoding => "TransferEncoding",
        RequestFault::BadLength => "BadLength",
        RequestFault::NoSuchDocument => "NoSuchDocument",
        RequestFault::BadMethod(_) => "BadMethod",
        RequestFault::NoLength => "NoLength",
        RequestFault::TooLong => "TooLong",
        RequestFault::Line(fault) => fault.word(),
    }
}

/// Returns the field `Allow` if the method is not allowed, else the empty text.
fn allow_text(fault: RequestFault) -> &'static str
    ensures { result.now ≡ allow_of fault }
{
    match fault {
        RequestFault::BadMethod(Methods::OfResources) => "Allow: GET, HEAD, PUT, DELETE\r\n",
        RequestFault::BadMethod(Methods::OfDocuments) => "Allow: GET, HEAD\r\n",
        RequestFault::BadMethod(Methods::OfPosts) => "Allow: POST\r\n",
        _ => "",
    }
}

/// Returns the status of a request that the source refuses.
fn refusal_status(refusal: Refusal) -> StatusCode
    ensures { result ≡ status_of_refusal refusal }
{
    match refusal {
        Refusal::BadGroup => StatusCode::BadRequest,
        Refusal::NotHeld => StatusCode::NotFound,
        Refusal::TooLong => StatusCode::ContentTooLarge,
        Refusal::Exhausted => StatusCode::InternalServerError,
        Refusal::Device => StatusCode::InternalServerError,
        Refusal::Damaged => StatusCode::InternalServerError,
        Refusal::Closed => StatusCode::ServiceUnavailable,
        Refusal::NoMemory => StatusCode::ServiceUnavailable,
        Refusal::TooManyResources => StatusCode::InsufficientStorage,
        Refusal::TooManyChanges => StatusCode::InsufficientStorage,
        Refusal::Full => StatusCode::InsufficientStorage,
        Refusal::ReadFault => StatusCode::InternalServerError,
        Refusal::ShortBody => StatusCode::BadRequest,
    }
}

/// Writes the response to a request that is refused before the source sees it, and returns its status.
pub(crate) fn write_fault<W: Write>(
    writer: &mut Watched<W>,
    framing: Framing,
    fault: RequestFault,
) -> Result<StatusCode, StreamFault>
    ensures { Sends W.contents writer.old writer.new framing (faulted fault) result }
{
    let status = fault_status(fault);
    let allow = allow_text(fault);
    let word = fault_word(fault);
    write_word(writer, framing, status, allow, word)?;
    Ok(status)
}

/// Writes the response to a request that the source refuses, and returns its status.
pub(crate) fn write_refusal<W: Write>(
    writer: &mut Watched<W>,
    framing: Framing,
    refusal: Refusal,
) -> Result<StatusCode, StreamFault>
    ensures { Sends W.contents writer.old writer.new framing (refused refusal) result }
{
    let status = refusal_status(refusal);
    let word = refusal.word();
    write_word(writer, framing, status, "", word)?;
    Ok(status)
}

/// Writes the response with the bytes of a resource, and returns its status.
pub(crate) fn write_shown<W: Write>(
    writer: &mut Watched<W>,
    framing: Framing,
    kind: &[u8],
    bytes: &[u8],
) -> Result<StatusCode, StreamFault>
    ensures { Sends W.contents writer.old writer.new framing (shown kind.now bytes.now) result }
{
    write_text(writer, framing, StatusCode::Ok, "", kind, bytes)?;
    Ok(StatusCode::Ok)
}

/// Writes the response to an accepted command. Its body is this word, which ends in a space, a number and a
/// moment.
#[tactic(auto, unfolding(crate::specs::Responses::content_lines))]
fn write_line<W: Write>(
    writer: &mut Watched<W>,
    framing: Framing,
    word: &str,
    number: u64,
    moment: Moment,
) -> Result<(), WriteFault>
    requires { length word.now ≤ 10 }
    ensures written { WritesOut W.contents writer.old writer.new result (framed framing StatusCode.Ok
        (content_lines plain (length (reply_line word.now number moment)))
        (reply_line word.now number moment)) }
    ensures failed { OnErr result (EndFailed writer.old writer.new) }
{
    let (mut digits, mut count) = (Buffer::new(), Buffer::new());
    let number = digits.format(number).as_bytes();
    let lines: [&[u8]; 3] = [
        b"Content-Type: text/plain\r\nContent-Length: ",
        count.format(word.len() + number.len() + 26).as_bytes(),
        b"\r\n\r\n",
    ];
    let body: [&[u8]; 5] = [word.as_bytes(), number, b" ", &moment.text(), b"\n"];
    write_response(writer, framing, StatusCode::Ok, &lines, &body)
}

/// Writes the response to an accepted command, and returns its status.
pub(crate) fn write_reply<W: Write>(
    writer: &mut Watched<W>,
    framing: Framing,
    reply: Reply,
) -> Result<StatusCode, StreamFault>
    ensures { Sends W.contents writer.old writer.new framing (replied reply) result }
{
    match reply {
        Reply::Created(_) => {
            write_bare(
                writer,
                framing,
                StatusCode::Created,
                b"Content-Length: 0\r\n\r\n",
            )?;
            Ok(StatusCode::Created)
        }
        Reply::Updated(_) | Reply::Deleted(_) => {
            write_bare(writer, framing, StatusCode::NoContent, b"\r\n")?;
            Ok(StatusCode::NoContent)
        }
        Reply::Published(number, moment) => {
            write_line(writer, framing, "published ", number, moment)?;
            Ok(StatusCode::Ok)
        }
        Reply::Grouped(count, moment) => {
            write_line(writer, framing, "grouped ", count as u64, moment)?;
            Ok(StatusCode::Ok)
        }
    }
}
