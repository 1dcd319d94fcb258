//! The text of a response, piece by piece.

ghost use Rattle.std.specs.Prelude.{◌≡◌, ◌++◌, [], length, codes, OnErr};
ghost use Rattle.std.specs.List.{flat_map};
ghost use Rattle.httpdate.specs.Date.{date_text};
ghost use Rattle.rs_io.specs.Watch.{EndFailed, WritesOut};
ghost use Rattle.rs_http.specs.Responses.{content_lines, first_lines, framed, plain, refusal_line};

use crate::status::StatusCode;
use httpdate::HttpDate;
use itoa::Buffer;
use rs_io::{Watched, WriteFault};
use std::io::Write;

/// The common part of the responses to one request.
#[derive(Clone, Copy, Debug)]
pub(crate) struct Framing {
    /// Their date.
    pub(crate) date: HttpDate,
    /// Whether the method is HEAD. They then have no body.
    pub(crate) is_head: bool,
}

/// Writes the status line, the date and `Connection: close`.
#[tactic(auto, unfolding(crate::specs::Responses::first_lines))]
fn write_first<W: Write>(
    writer: &mut Watched<W>,
    status: StatusCode,
    date: &HttpDate,
) -> Result<(), WriteFault>
    ensures written { WritesOut W.contents writer.old writer.new result
        (first_lines status (date_text date.now)) }
    ensures failed { OnErr result (EndFailed writer.old writer.new) }
{
    let mut digits = Buffer::new();
    writer.put_all(&[
        b"HTTP/1.1 ",
        digits.format(status.code()).as_bytes(),
        b" ",
        status.phrase().as_bytes(),
        b"\r\nDate: ",
        &date.to_bytes(),
        b"\r\nConnection: close\r\n",
    ])
}

/// Writes a response: header lines in pieces, the empty line included, and a body in pieces, left out if the method is
/// HEAD.
pub(crate) fn write_response<W: Write>(
    writer: &mut Watched<W>,
    framing: Framing,
    status: StatusCode,
    lines: &[&[u8]],
    body: &[&[u8]],
) -> Result<(), WriteFault>
    ensures written { WritesOut W.contents writer.old writer.new result (framed framing status
        (flat_map (λ piece. piece.now) lines.now) (flat_map (λ piece. piece.now) body.now)) }
    ensures failed { OnErr result (EndFailed writer.old writer.new) }
{
    write_first(writer, status, &framing.date)?;
    writer.put_all(lines)?;
    if framing.is_head {
        return Ok(());
    }
    writer.put_all(body)
}

/// Writes a response with a body of this type; `allow` is its first header line, or empty.
#[tactic(auto, unfolding(crate::specs::Responses::content_lines))]
pub(crate) fn write_text<W: Write>(
    writer: &mut Watched<W>,
    framing: Framing,
    status: StatusCode,
    allow: &str,
    kind: &[u8],
    body: &[u8],
) -> Result<(), WriteFault>
    ensures written { WritesOut W.contents writer.old writer.new result
        (framed framing status (allow.now ++ content_lines kind.now (length body.now)) body.now) }
    ensures failed { OnErr result (EndFailed writer.old writer.new) }
{
    let mut digits = Buffer::new();
    let lines: [&[u8]; 6] = [
        allow.as_bytes(),
        b"Content-Type: ",
        kind,
        b"\r\nContent-Length: ",
        digits.format(body.len()).as_bytes(),
        b"\r\n\r\n",
    ];
    write_response(writer, framing, status, &lines, &[body])
}

/// Writes a response whose body is a word and a line feed; `allow` is its first header line, or empty.
#[tactic(auto, unfolding(crate::specs::Responses::content_lines))]
pub(crate) fn write_word<W: Write>(
    writer: &mut Watched<W>,
    framing: Framing,
    status: StatusCode,
    allow: &str,
    word: &str,
) -> Result<(), WriteFault>
    ensures written { WritesOut W.contents writer.old writer.new result
        (framed framing status (allow.now ++ content_lines plain (length (refusal_line word.now)))
        (refusal_line word.now)) }
    ensures failed { OnErr result (EndFailed writer.old writer.new) }
{
    let mut digits = Buffer::new();
    let lines: [&[u8]; 4] = [
        allow.as_bytes(),
        b"Content-Type: text/plain\r\nContent-Length: ",
        digits.format(word.len() as u64 + 1).as_bytes(),
        b"\r\n\r\n",
    ];
    write_response(writer, framing, status, &lines, &[word.as_bytes(), b"\n"])
}

/// Writes a response without a body, with these header lines and the empty line.
pub(crate) fn write_bare<W: Write>(
    writer: &mut Watched<W>,
    framing: Framing,
    status: StatusCode,
    lines: &[u8],
) -> Result<(), WriteFault>
    ensures written { WritesOut W.contents writer.old writer.new result
        (framed framing status lines.now []) }
    ensures failed { OnErr result (EndFailed writer.old writer.new) }
{
    write_response(writer, framing, status, &[lines], &[])
}

/// Writes the head of the response with a document of this length, in bytes.
#[tactic(auto, unfolding(crate::specs::Responses::content_lines))]
pub(crate) fn write_document_head<W: Write>(
    writer: &mut Watched<W>,
    framing: Framing,
    length: u64,
) -> Result<(), WriteFault>
    ensures written { WritesOut W.contents writer.old writer.new result
        (framed framing StatusCode.Ok (content_lines (codes "application/xml") length) []) }
    ensures failed { OnErr result (EndFailed writer.old writer.new) }
{
    let mut digits = Buffer::new();
    let lines: [&[u8]; 3] = [
        b"Content-Type: application/xml\r\nContent-Length: ",
        digits.format(length).as_bytes(),
        b"\r\n\r\n",
    ];
    write_response(writer, framing, StatusCode::Ok, &lines, &[])
}
