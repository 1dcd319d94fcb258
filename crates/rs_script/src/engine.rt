//! The script engine. It answers the statements of an input, one after another.

ghost use Rattle.std.specs.Prelude.{◌≡◌, ◌^◌, OnOk, IsErr, IsErrOf, IsTrue};
ghost use Rattle.rs_io.specs.Watch.{watched, is_broken, seen_by, IsRefused, ends_of};
ghost use Rattle.rs_script.specs.Finished.{EndsWell, StopsReading, StopsWriting, ReadsWithin};
ghost use Rattle.rs_script.specs.Told.{TellsStatements};

use crate::laws::{scripts_do_statements, scripts_make_walks, scripts_recover};
use crate::pending::Pending;
use rs_disk::Disk;
use rs_io::{StreamFault, Watched};
use rs_store::Source;
use std::alloc::Global;
use std::io::{Read, Write};

/// The bytes that one read asks for.
const PIECE: usize = 65_536;

/// The greatest number of reads, more than any real input needs.
const READS: u64 = 1 << 40;

/// Runs a script. It reads statements from `reader`, a line or a group with its lines, does them on `source`, and
/// writes the answers to `writer`. It flushes the writer before every read and at the end. Commands come at the moment
/// 0 until an `at` sets another.
///
/// A read that gives no byte is the end. No call is retried after an error.
///
/// # Errors
///
/// - [`StreamFault::Read`]: a read failed in this call, or 2^40 reads did not reach the end. The statements that came
///   whole are answered. A part of a line or of a group after them is not done.
/// - [`StreamFault::Write`]: a call of the writer failed in this call. The statements whose answers were written are
///   done, and so is the one whose answer failed. No other was begun.
///
/// Whenever the disk stops within the call, it holds the state after the first counted commands: all that were
/// answered, and perhaps one more (`recovers` of `Ran`). To a destination the script is a walk, of commands that are
/// tried, refused or stopped, and of fetches of the shown bytes (`walks`).
pub fn script<D: Disk, R: Read, W: Write>(
    alloc: Global,
    source: &mut Source<D>,
    reader: &mut Watched<R>,
    writer: &mut Watched<W>,
) -> Result<(), StreamFault>
    // The whole input was answered, and all answers are flushed.
    ensures ok { OnOk result (EndsWell D.state source.old source.new
        (ends_of R.remaining reader.old reader.new W.contents writer.old writer.new)) }

    // A read failed, and all answers were flushed before it; or 2^40 reads did not reach the end. The
    // whole statements were answered, and a part of one after them was not.
    ensures read { IsErrOf result StreamFault.Read → StopsReading D.state source.old source.new
        (ends_of R.remaining reader.old reader.new W.contents writer.old writer.new) }

    // A call of the writer failed, and no call of the reader. The statements so far are done. They came whole, or the
    // input had ended.
    ensures write { IsErrOf result StreamFault.Write → StopsWriting D.state source.old source.new
        (ends_of R.remaining reader.old reader.new W.contents writer.old writer.new) }

    // Whatever the result, the source got the commands that the statements ask for, at most one for each statement, and
    // no others. The bytes that the writer took report their answers. If the device has followed the model, every name
    // that the writer took is lawful.
    ensures answered { TellsStatements D.state source.old source.new
        (ends_of R.remaining reader.old reader.new W.contents writer.old writer.new) }

    // Whatever the result, it made at most 2^40 reads of at most 65,536 bytes each, and no read after a failed one.
    ensures reads { ReadsWithin (2 ^ 40) 65536 (seen_by R.remaining reader.old)
        (seen_by R.remaining reader.new) }

    // If the writer had failed before, no byte is read, and no statement is done.
    ensures broken_writer { IsTrue (is_broken writer.old)
        → IsRefused writer.old writer.new result × (reader.new ≡ reader.old)
        × (source.new ≡ source.old) }

    // If the reader had failed before, no byte is read, and no statement is done.
    ensures broken_reader { IsTrue (is_broken reader.old) → IsErr result
        × (watched reader.new ≡ watched reader.old) × (source.new ≡ source.old) }
{
    scripts_recover::<D>();
    scripts_do_statements::<D>();
    scripts_make_walks::<D>();
    let mut pending = Pending::new(alloc);
    let mut buf = [0u8; PIECE];
    for _ in 0..READS {
        writer.flush()?;
        let count = reader.read(&mut buf)?;
        if count == 0 {
            pending.take_end(alloc, source, writer)?;
            writer.flush()?;
            return Ok(());
        }
        pending.take_piece(alloc, source, &buf[..count], writer)?;
    }
    Err(StreamFault::Read)
}
