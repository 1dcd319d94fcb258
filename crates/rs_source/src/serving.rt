//! Serving connections.

ghost use Rattle.std.specs.Prelude.{◌≡◌, ◌≤◌, ◌/◌, ℕ, List, IfOk, OnErr, length, min};
ghost use Rattle.std.specs.Duration.{as_nanos};
ghost use Rattle.rs_model.specs.declared.command.Command.{Command};
ghost use Rattle.rs_io.specs.Watch.{ends_of};
ghost use Rattle.rs_store.specs.Advancing.{GoesOnBy, GoesOnOnce};
ghost use Rattle.rs_http.specs.Counted.{RunsAtMost};
ghost use Rattle.rs_http.specs.Told.{TellsRequest};
ghost use Rattle.rs_http.specs.Turn.{turn};
ghost use Rattle.rs_source.specs.Connections.{Connection, ServesAt};
ghost use Rattle.rs_source.specs.Serving.{Requests, was_refused, AreServed, AnswersConnections, ServesAccepted};

use crate::listener::{Listener, Service};
use rs_disk::Disk;
use rs_http::{Served, serve_one};
use rs_io::{StreamFault, Watched};
use rs_recovery::laws::{runs_go_on, runs_recover, turns_are_seen};
use rs_store::Source;
use rs_store::laws::held_sources_rest;
use rs_time::Moment;
use std::alloc::Global;
use std::io::{self, BufReader, BufWriter, Read, Write};
use std::net::{Shutdown, TcpListener, TcpStream};
use std::rt::Clock;
use std::time::Duration;

/// The maximum number of bytes of one read of a socket.
const READ_AHEAD: usize = 32_768;

/// The approximate time for which the program reads the rest of a refused request, in seconds.
const LONGEST_REST: u64 = 2;

/// The maximum number of reads of the rest of a refused request: at most 64 MiB.
const MOST_READS: usize = 8192;

/// Returns the moment this long after the beginning of 1970, cut to its millisecond, but no later than the last moment.
fn moment_after(since_1970: Duration) -> Moment
    ensures { result ≡ min (as_nanos since_1970 / 1_000_000) 253_402_300_799_999 }
{
    let ms = since_1970.as_millis().min(u128::from(Moment::GREATEST));
    match Moment::new(ms as u64) {
        Some(moment) => moment,
        None => unreachable!(),
    }
}

/// Returns the moment that a clock shows: the moment 0 where the clock shows a time before 1970 or cannot be read, and
/// the last moment where the clock shows a later time.
pub fn moment_of(since_1970: io::Result<Duration>) -> Moment
    ensures shown { IfOk since_1970 (λ t.
        result ≡ min (as_nanos t / 1_000_000) 253_402_300_799_999) }
    ensures unread { OnErr since_1970 (result ≡ 0) }
{
    match since_1970 {
        Ok(since_1970) => moment_after(since_1970),
        Err(_) => Moment::first(),
    }
}

/// Serves one request at the moment `now`, between any two ends, by [`serve_one`]. One relation here replaces three
/// clauses of its answers; the clause of a connection needs only this relation.
fn serve_request<D: Disk, R: Read, W: Write>(
    alloc: Global,
    source: &mut Source<D>,
    reader: &mut Watched<R>,
    writer: &mut Watched<W>,
    now: Moment,
) -> Result<Served, StreamFault>
    // The bytes that these two ends gave and took are one request, with this result.
    ensures request { Requests (turn D.state source.old now source.new)
        (ends_of R.remaining reader.old reader.new W.contents writer.old writer.new) result }

    // The source got at most one command, the one that the request asks for, and the bytes that the writer took report
    // its answer. A 200 to any other request than a GET or a HEAD reports the reply.
    ensures answered { TellsRequest (turn D.state source.old now source.new)
        (ends_of R.remaining reader.old reader.new W.contents writer.old writer.new) }

    ensures once { GoesOnOnce D.state source.old now source.new }
    ensures run { RunsAtMost D.state source.old 1 source.new }
{
    serve_one(alloc, source, reader, writer, now)
}

/// Returns whether a request was answered with a refusal.
fn is_refused(served: Result<Served, StreamFault>) -> bool
    ensures { result ≡ was_refused served }
{
    matches!(served, Ok(Served::Answered(status)) if status.code() >= 400)
}

impl<D: Disk> Service for Source<D> {
    ghost use Rattle.rs_source.specs.Serving.{IsServedAs};

    ghost serves = { λ old connection refused new. IsServedAs D.state old connection refused new };

    fn serve<R: Read, W: Write>(
        &mut self,
        alloc: Global,
        reader: &mut Watched<R>,
        writer: &mut Watched<W>,
        now: Moment,
    ) -> bool {
        is_refused(serve_request(alloc, self, reader, writer, now))
    }
}

/// Passes the request of a connection to a service, at the moment `now`, and returns whether it was refused.
fn answer_stream<S: Service>(
    alloc: Global,
    service: &mut S,
    stream: &TcpStream,
    now: Moment,
) -> bool
    ensures { ServesAt S.serves service.old now result service.new }
{
    let Ok(input) = BufReader::with_capacity(alloc, READ_AHEAD, stream) else {
        return false;
    };
    let Ok(output) = BufWriter::new(alloc, stream) else {
        return false;
    };
    let mut reader = Watched::new(input);
    let mut writer = Watched::new(output);
    service.serve(alloc, &mut reader, &mut writer, now)
}

/// Shuts down the sending side of a connection, then reads and drops the bytes that the client still sends. A
/// connection that is closed with unread bytes is reset, and its client may lose the response (RFC 9112, section 9.6).
/// It reads at most 64 MiB, for about two seconds.
fn read_rest<C: Clock>(stream: &TcpStream, clock: &C) {
    let Ok(begun) = clock.monotonic() else {
        return;
    };
    if stream.shutdown(Shutdown::Write).is_err()
        || stream
            .set_read_timeout(Some(Duration::from_secs(LONGEST_REST)))
            .is_err()
    {
        return;
    }
    let mut reader = stream;
    let mut rest = [0u8; 8192];
    for _ in 0..MOST_READS {
        let Ok(1..) = reader.read(&mut rest) else {
            return;
        };
        if has_passed(begun, clock) {
            return;
        }
    }
}

/// Returns whether the time for the rest has passed since `begun`, or the clock cannot be read.
fn has_passed<C: Clock>(begun: Duration, clock: &C) -> bool {
    match clock.monotonic() {
        Ok(now) => now.saturating_sub(begun).as_secs() >= LONGEST_REST,
        Err(_) => true,
    }
}

/// The connections of a socket, each at the moment that a clock shows.
///
/// The kit has no contract of sockets and clocks, so no clause determines the connections (`accepted`). It is trusted
/// and tested that the ends are those of the connection, and that the moment is that of the clock.
#[derive(Drop)]
pub struct Sockets<'a, C: Clock> {
    listener: &'a TcpListener,
    clock: &'a C,
}

impl<'a, C: Clock> Listener for Sockets<'a, C> {
    ghost use Rattle.std.specs.Prelude.{List};
    ghost use Rattle.rs_source.specs.Connections.{Connection};

    ghost accepted = { λ from connections to. Unit {0} };

    fn next<S: Service>(&mut self, alloc: Global, service: &mut S) {
        let Ok((stream, _)) = self.listener.accept() else {
            return;
        };
        let now = moment_of(self.clock.since_1970());
        if answer_stream(alloc, service, &stream, now) {
            read_rest(&stream, self.clock);
        }
    }

    ghost rests = { λ listener. tt };

    ghost joins = { λ from at to early late came then. tt };
}

/// Serves the next connection that a listener accepts, with one request. A connection that it cannot accept leaves the
/// source unchanged.
pub fn serve_next<D: Disk, L: Listener>(alloc: Global, source: &mut Source<D>, listener: &mut L)
    // From the accepted connection the source got at most one command, which is the request of its reader, at the
    // moment of the connection; its writer took the answer. Data that the source shows was requested too. If the source
    // held a state, its disk saw exactly this command answered from that state on. So a stop while the listener waits
    // for the next connection finds the source in this state.
    ensures accepted { ServesAccepted D.state L.accepted listener.old source.old 1 listener.new
        source.new }
{
    held_sources_rest::<D>();
    runs_go_on::<D>();
    turns_are_seen::<D>();
    listener.next(alloc, source);
}

/// Serves at most `count` connections that a listener accepts, in sequence, with one request per connection. A
/// connection that the listener cannot accept counts too, and leaves the source unchanged.
///
/// A fault of a connection ends only that connection. Then the source holds the state after at most one command per
/// connection, unless the device failed in a command and closed the source.
pub fn serve_accepted<D: Disk, L: Listener>(
    alloc: Global,
    source: &mut Source<D>,
    listener: &mut L,
    count: u64,
)
    // The same for all of them. The next connection begins with the source that this one left.
    ensures accepted { ServesAccepted D.state L.accepted listener.old source.old count listener.new
        source.new }

    ensures goes_on { (commands : List (Command × ℕ)) × (length commands ≤ count)
        × GoesOnBy D.state source.old source.new commands }

    // The connections together are a run of at most one counted command per connection. So whenever the disk stops, it
    // holds the state after a prefix of these commands.
    ensures run { RunsAtMost D.state source.old count source.new }
{
    held_sources_rest::<D>();
    runs_go_on::<D>();
    runs_recover::<D>();
    turns_are_seen::<D>();
    for _ in 0..count {
        serve_next(alloc, source, listener);
    }
}

/// Serves `count` connections of a socket, in sequence, with one request per connection. The request comes at the
/// moment that the clock shows when the connection is accepted.
///
/// It is [`serve_accepted`] on the connections of the socket. The clauses of that function determine the answers.
pub fn serve_connections<D: Disk, C: Clock>(
    alloc: Global,
    source: &mut Source<D>,
    listener: &TcpListener,
    count: u64,
    clock: &C,
)
    ensures connections { (connections : List Connection) × (length connections ≤ count)
        × AreServed D.state source.old connections source.new
        × AnswersConnections D.state source.old connections source.new }
    ensures goes_on { (commands : List (Command × ℕ)) × (length commands ≤ count)
        × GoesOnBy D.state source.old source.new commands }
    ensures run { RunsAtMost D.state source.old count source.new }
{
    let mut sockets = Sockets { listener, clock };
    serve_accepted(alloc, source, &mut sockets, count);
}
