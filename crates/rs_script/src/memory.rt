//! Scripts in memory.

ghost use Rattle.std.specs.Prelude.{◌≡◌, OnOk, OnErr, IsOkUnless};
ghost use Rattle.rs_io.specs.Watch.{EndFailed, Wrote};
ghost use Rattle.rs_script.specs.Answers.{output_of};
ghost use Rattle.rs_script.specs.Finished.{StopsWithin};
ghost use Rattle.rs_script.specs.Script.{Ran};

use crate::laws::{scripts_make_walks, scripts_recover};
use crate::pending::Pending;
use rs_disk::Disk;
use rs_io::{StreamFault, Watched};
use rs_store::Source;
use std::alloc::Global;
use std::io::Write;

/// Runs the script `input` on `source`, and writes its answers to `writer`, which may be a `Vec<u8>`. It does not flush
/// the writer.
///
/// # Errors
///
/// [`StreamFault::Write`] if a write failed within an answer, as for lack of memory. Its statement and those before it
/// are done, and no other was begun.
pub fn script_bytes<D: Disk, W: Write>(
    alloc: Global,
    source: &mut Source<D>,
    input: &[u8],
    writer: &mut Watched<W>,
) -> Result<(), StreamFault>
    ensures ok { OnOk result ((ran : Ran D.state source.old source.new)
        × (ran.input ≡ input.now)
        × Wrote W.contents writer.old writer.new (output_of ran.outcomes)) }

    // The statements up to one are done, and a write failed within the answer to that one.
    ensures err { OnErr result (StopsWithin D.state W.contents source.old source.new
        writer.old writer.new input.now) }
    ensures failed { OnErr result (EndFailed writer.old writer.new) }

    ensures fault { IsOkUnless result StreamFault.Write }
{
    scripts_recover::<D>();
    scripts_make_walks::<D>();
    let mut pending = Pending::new(alloc);
    pending.take_piece(alloc, source, input, writer)?;
    pending.take_end(alloc, source, writer)?;
    Ok(())
}
