//! One request to a source.

ghost use Rattle.std.specs.Prelude.{◌≡◌, ℕ, true, IfOk, OnOk, IsErrOf};
ghost use Rattle.rs_io.specs.Watch.{is_flushed, StaysFlushed, ends_of};
ghost use Rattle.rs_store.specs.Advancing.{GoesOnOnce};
ghost use Rattle.rs_http.specs.Counted.{RunsAtMost};
ghost use Rattle.rs_http.specs.Turn.{turn};
ghost use Rattle.rs_http.specs.Serving.{Serves, Breaks, Halts};
ghost use Rattle.rs_http.specs.Told.{TellsRequest};

use crate::answer::answer;
use crate::head::{HEAD_LIMIT, read_head};
use crate::laws::{requests_are_runs, requests_get_one, requests_make_walks, requests_recover};
use crate::plan::read_request;
use crate::status::StatusCode;
use rs_disk::Disk;
use rs_io::{StreamFault, Watched};
use rs_store::Source;
use rs_store::laws::held_sources_rest;
use rs_time::Moment;
use std::alloc::Global;
use std::io::{Read, Write};

/// The result of serving a connection.
#[derive(Clone, Copy, Debug, PartialEq, Eq)]
pub enum Served {
    /// A request was answered with this status.
    Answered(StatusCode),
    /// The input ended before a byte came, and no byte was written.
    Nothing,
}

/// Reads one request, runs it, and writes the response (RFC 9110 and RFC 9112). The date of the response is `now`, cut
/// to its second. A command comes at `now`.
///
/// It reads the head byte by byte and takes no byte after the request: give it a buffered reader. It reads the whole
/// body of a group into memory, at most 16,777,216 bytes. It flushes the writer after the word to go on, and at the
/// end.
///
/// # Errors
///
/// - [`StreamFault::Read`] if a read failed in this call. The request is not done, and at most the word to go on is
///   written.
/// - [`StreamFault::Write`] if a call of the writer failed in this call. If the word to go on was due and was not
///   flushed, the request is not done. Otherwise an accepted command remains applied. The writer took a beginning of
///   the text, and no other byte.
///
/// Whenever the disk stops within the call, it holds the state before, or the state after the request's one command.
/// The call makes a walk of at most one event: the command as it was answered, or the fetch of the bytes that a GET was
/// shown. At its end every image of the disk represents the state after the walk.
pub fn serve_one<D: Disk, R: Read, W: Write>(
    alloc: Global,
    source: &mut Source<D>,
    reader: &mut Watched<R>,
    writer: &mut Watched<W>,
    now: Moment,
) -> Result<Served, StreamFault>
    // The bytes written are the response to the bytes read.
    ensures ok { IfOk result (Serves (turn D.state source.old now source.new)
        (ends_of R.remaining reader.old reader.new W.contents writer.old writer.new)) }

    // A read failed, and no call of the writer.
    ensures read { IsErrOf result StreamFault.Read
        → Breaks (turn D.state source.old now source.new)
        (ends_of R.remaining reader.old reader.new W.contents writer.old writer.new) }

    // A call of the writer failed, and no call of the reader. A write failed within the text, or a flush after it. The
    // effect of the request remains.
    ensures write { IsErrOf result StreamFault.Write
        → Halts (turn D.state source.old now source.new)
        (ends_of R.remaining reader.old reader.new W.contents writer.old writer.new) }

    // The whole answer was flushed. So was the word to go on, before the body was read.
    ensures sent { IfOk result (λ served. (status : StatusCode) → served ≡ Served.Answered status
        → is_flushed writer.new ≡ true) }
    ensures flushed { OnOk result (StaysFlushed writer.old writer.new) }
    ensures waits { IsErrOf result StreamFault.Read → StaysFlushed writer.old writer.new }

    // With any result, at most one command changes the held state, while the source is open.
    ensures goes_on { GoesOnOnce D.state source.old now source.new }

    // With any result, the call is a run of at most one counted command.
    ensures run { RunsAtMost D.state source.old 1 source.new }

    // With any result, the source got at most one command, the one that the request asks for, and the bytes that the
    // writer took report its answer. To any request but a GET or a HEAD a 200 is such an answer.
    ensures answered { TellsRequest (turn D.state source.old now source.new)
        (ends_of R.remaining reader.old reader.new W.contents writer.old writer.new) }
{
    held_sources_rest::<D>();
    requests_are_runs::<D>();
    requests_get_one::<D>();
    requests_recover::<D>();
    requests_make_walks::<D>();
    let mut buf = [0u8; HEAD_LIMIT];
    let (read, came) = read_head(reader, &mut buf)?;
    let Some(request) = read_request(alloc, &buf[..came], read) else {
        return Ok(Served::Nothing);
    };
    let status = answer(alloc, source, reader, writer, request, now)?;
    Ok(Served::Answered(status))
}
