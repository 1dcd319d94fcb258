//! The lengths of texts, without the texts.

ghost use Rattle.std.specs.Prelude.{◌≡◌, ◌-◌, ◌^◌, min, length};
ghost use Rattle.rs_fixity.specs.HashText.{hash_text_of};
ghost use Rattle.rs_lists.specs.Piece.{piece_text, pieces_text};

use crate::Piece;
use crate::escape::escaped_length;
use crate::sink::Sink;
use rs_fixity::Digests;
use rs_io::WriteFault;
use rs_record::count_digits;

/// A sink that counts the bytes of the pieces that it takes, and never fails.
#[derive(Drop)]
pub struct Meter {
    total: u64,
}

impl Meter {
    ghost use Rattle.rs_lists.specs.Meters.{bytes_counted};

    /// Returns a meter that has counted no byte.
    pub fn new() -> Meter
        ensures { bytes_counted result ≡ 0 }
    {
        Meter { total: 0 }
    }

    /// Returns the number of bytes that went in, or `u64::MAX` if there were more.
    pub fn total(&self) -> u64
        ensures { result ≡ bytes_counted self.now }
    {
        self.total
    }
}

impl Sink for Meter {
    ghost use Rattle.rs_lists.specs.Meters.{bytes_counted};
    ghost use Rattle.rs_lists.specs.SinkLaws.{meter_is_sink};
    ghost use Rattle.rs_lists.specs.Sinks.{CountGrowsBy};

    ghost takes = { λ a b bytes. CountGrowsBy (bytes_counted a) (bytes_counted b) bytes };

    ghost fails = { λ _ _ _. ⊥ };

    ghost laws = { meter_is_sink bytes_counted };

    fn put_piece(&mut self, piece: &Piece<'_>) -> Result<(), WriteFault> {
        self.total = self.total.saturating_add(piece_length(piece));
        Ok(())
    }
}

/// Returns the number of bytes of the pieces, or `u64::MAX` if they have more. It takes no memory.
pub fn pieces_length(pieces: &[Piece<'_>]) -> u64
    ensures { result ≡ min (length (pieces_text pieces.now)) (2 ^ 64 - 1) }
{
    let mut total = 0u64;
    for piece in pieces {
        total = total.saturating_add(piece_length(piece));
    }
    total
}

/// Returns the number of bytes of a piece, or `u64::MAX` if it has more.
fn piece_length(piece: &Piece<'_>) -> u64
    ensures { result ≡ min (length (piece_text piece.now)) (2 ^ 64 - 1) }
{
    match piece {
        Piece::Plain(bytes) => bytes.len() as u64,
        Piece::Escaped(bytes) => escaped_length(bytes),
        Piece::Number(number) => count_digits(*number),
        Piece::At(_) => 24,
        Piece::Hash(digests) => hash_length(digests),
    }
}

/// Returns the number of bytes of the text of the digests.
pub fn hash_length(digests: &Digests) -> u64
    ensures value { result ≡ length (hash_text_of digests.now) }
    ensures constant { result ≡ 109 }
{
    let md5 = digests.md5.as_slice();
    let sha256 = digests.sha256.as_slice();
    13 + 2 * (md5.len() + sha256.len()) as u64
}
