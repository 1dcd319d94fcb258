//! Listeners, and the services that serve their connections.

use rs_io::Watched;
use rs_time::Moment;
use std::alloc::Global;
use std::io::{Read, Write};

/// A service serves connections in sequence, with one request per connection.
pub trait Service {
    ghost use Rattle.std.specs.Prelude.{Bool};
    ghost use Rattle.rs_io.specs.Watch.{ends_of};
    ghost use Rattle.rs_source.specs.Connections.{Connection, connection_of};

    // The relation of the service before, the connection, whether the service refused the request, and the service
    // after.
    ghost serves: { Self → Connection → Bool → Self → Type 0 };

    /// Serves one request at the moment `now`, and returns whether the request was refused.
    fn serve<R: Read, W: Write>(
        &mut self,
        alloc: Global,
        reader: &mut Watched<R>,
        writer: &mut Watched<W>,
        now: Moment,
    ) -> bool
        ensures { serves self.old (connection_of now
            (ends_of R.remaining reader.old reader.new W.contents writer.old writer.new))
            result self.new };
}

/// A listener accepts connections and passes every connection to a service.
///
/// The ghost `accepted` relates a listener to the connections that it accepted. A connection has its moment, and the
/// bytes that its reader gave and its writer took. So a clause about every listener applies to all real connections of
/// a socket.
pub trait Listener {
    ghost use Rattle.std.specs.Prelude.{List, [], ◌++◌};
    ghost use Rattle.rs_source.specs.Connections.{Connection, AcceptsOne};

    // The listener before, the connections that it accepted, in sequence, and the listener after.
    ghost accepted: { Self → List Connection → Self → Type 0 };

    /// Accepts the next connection. The service serves it between its two new ends, at the moment that the clock shows.
    /// Where the listener cannot accept the connection, or has no memory for its buffers, the service gets no
    /// connection.
    fn next<S: Service>(&mut self, alloc: Global, service: &mut S)
        ensures { AcceptsOne accepted S.serves self.old service.old self.new service.new };

    // A listener without calls accepted no connections, and two sequences of connections join to one.
    ghost rests: { (listener : Self) → accepted listener [] listener };

    ghost joins: { (from at to : Self) (early late : List Connection) → accepted from early at → accepted at late to
        → accepted from (early ++ late) to };
}
