//! Showing documents and bodies.

ghost use Rattle.std.specs.Prelude.{◌++◌, OnErr, codes};
ghost use Rattle.std.specs.Fmt.{decimal};
ghost use Rattle.rs_io.specs.Watch.{EndFailed, WritesOut};
ghost use Rattle.rs_script.specs.Answers.{shown_text};

use itoa::Buffer;
use rs_caps::Document;
use rs_io::{Watched, WriteFault};
use rs_lists::View;
use std::io::Write;

/// Writes `bytes N`, a line feed, the N bytes and a line feed.
///
/// # Errors
///
/// [`WriteFault`] if the writer failed. It took a beginning of the text.
pub fn write_shown<W: Write>(bytes: &[u8], writer: &mut Watched<W>) -> Result<(), WriteFault>
    ensures written { WritesOut W.contents writer.old writer.new result (shown_text bytes.now) }
    ensures failed { OnErr result (EndFailed writer.old writer.new) }
{
    let mut digits = Buffer::new();
    writer.put_all(&[
        b"bytes ",
        digits.format(bytes.len()).as_bytes(),
        b"\n",
        bytes,
        b"\n",
    ])
}

/// Writes `bytes N` and a line feed.
fn write_count<W: Write>(count: u64, writer: &mut Watched<W>) -> Result<(), WriteFault>
    ensures written { WritesOut W.contents writer.old writer.new result
        (codes "bytes " ++ (decimal count ++ codes "\n")) }
    ensures failed { OnErr result (EndFailed writer.old writer.new) }
{
    let mut digits = Buffer::new();
    writer.put_all(&[b"bytes ", digits.format(count).as_bytes(), b"\n"])
}

/// Writes `bytes N`, a line feed, the N bytes of the text of a document, and a line feed.
///
/// # Errors
///
/// [`WriteFault`] if the writer failed. It took a beginning of the text.
pub fn write_shown_document<V: View, W: Write>(
    document: &Document<'_, V>,
    writer: &mut Watched<W>,
) -> Result<(), WriteFault>
    ensures written { WritesOut W.contents writer.old writer.new result (shown_text document.now) }
    ensures failed { OnErr result (EndFailed writer.old writer.new) }
{
    write_count(document.len(), writer)?;
    document.write(writer)?;
    writer.put(b"\n")
}
