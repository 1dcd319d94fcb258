//! A sink takes the pieces of a text: a writer writes them, a meter counts their bytes.
//!
//! The same code puts a document into any sink, so its measured length is the length written.

ghost use Rattle.std.specs.Prelude.{◌≡◌, ℕ, List, OnOk, OnErr};
ghost use Rattle.rs_lists.specs.Piece.{piece_text, pieces_text};
ghost use Rattle.rs_lists.specs.Sinks.{IsSink, Puts};
ghost use Rattle.rs_lists.specs.Text.{line};

use crate::Piece;
use crate::escape::write_escaped;
use rs_fixity::hash_text;
use rs_io::{Watched, WriteFault};
use std::io::Write;

/// A receiver of the pieces of a text.
pub trait Sink {
    /// Between these two states the sink took these bytes, and did not fail.
    ghost takes: { Self → Self → List ℕ → Type 0 };

    /// Between these two states the sink failed within these bytes. It took a beginning of them.
    ghost fails: { Self → Self → List ℕ → Type 0 };

    /// Takes a piece.
    fn put_piece(&mut self, piece: &Piece<'_>) -> Result<(), WriteFault>
        ensures taken { OnOk result (takes self.old self.new (piece_text piece.now)) }
        ensures fault { OnErr result (fails self.old self.new (piece_text piece.now)) };

    /// Two texts in a row are one text.
    ghost laws: { IsSink takes fails };
}

impl<W: Write> Sink for Watched<W> {
    ghost use Rattle.rs_io.specs.Watch.{FailedWithin, Wrote};
    ghost use Rattle.rs_lists.specs.SinkLaws.{writer_is_sink};

    ghost takes = { λ a b bytes. Wrote W.contents a b bytes };

    ghost fails = { λ a b bytes. FailedWithin W.contents a b bytes };

    ghost laws = { writer_is_sink W.contents };

    fn put_piece(&mut self, piece: &Piece<'_>) -> Result<(), WriteFault> {
        match piece {
            Piece::Plain(bytes) => self.put(bytes),
            Piece::Escaped(bytes) => write_escaped(bytes, self),
            Piece::Number(number) => self.put_number(*number),
            Piece::At(moment) => self.put(&moment.text()),
            Piece::Hash(digests) => self.put(&hash_text(digests)),
        }
    }
}

/// Puts pieces in their order.
pub fn put_all<S: Sink>(pieces: &[Piece<'_>], sink: &mut S) -> Result<(), WriteFault>
    ensures { Puts S.takes S.fails sink.old sink.new result (pieces_text pieces.now) }
{
    for piece in pieces {
        sink.put_piece(piece)?;
    }
    Ok(())
}

/// Puts a line of these pieces.
pub fn put_line<S: Sink>(pieces: &[Piece<'_>], sink: &mut S) -> Result<(), WriteFault>
    ensures { Puts S.takes S.fails sink.old sink.new result (line (pieces_text pieces.now)) }
{
    put_all(pieces, sink)?;
    sink.put_piece(&Piece::Plain(b"\n"))
}
