//! The pieces of a text.

ghost use Rattle.std.specs.Prelude.{OnOk, OnErr};
ghost use Rattle.rs_io.specs.Watch.{EndFailed, FailedWithin, Wrote};
ghost use Rattle.rs_lists.specs.Piece.{pieces_text};

use crate::sink::put_all;
use rs_fixity::Digests;
use rs_io::{Watched, WriteFault};
use rs_time::Moment;
use std::io::Write;

/// A piece of a text.
#[derive(Clone, Copy)]
pub enum Piece<'a> {
    /// Bytes that are written unchanged.
    Plain(&'a [u8]),

    /// Bytes with the five special characters of XML written as references.
    Escaped(&'a [u8]),

    /// A number in decimal, with no leading zero.
    Number(u64),

    /// A moment as a W3C Datetime of 24 bytes.
    At(Moment),

    /// Both digests as the 109 bytes of the attribute `hash`.
    Hash(Digests),
}

/// Writes pieces in their order. Takes no memory.
///
/// # Errors
///
/// [`WriteFault`] where a write fails. A beginning of the text is written then, and no other byte.
pub fn put_pieces<W: Write>(pieces: &[Piece<'_>], out: &mut Watched<W>) -> Result<(), WriteFault>
    ensures written { OnOk result (Wrote W.contents out.old out.new (pieces_text pieces.now)) }
    ensures fault { OnErr result (EndFailed out.old out.new) }
    ensures within { OnErr result
        (FailedWithin W.contents out.old out.new (pieces_text pieces.now)) }
{
    put_all(pieces, out)
}
