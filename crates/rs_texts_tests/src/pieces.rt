//! Texts in pieces. The digests are those of "abc" in RFC 1321 (A.5) and FIPS 180-4.

use crate::narrow::Narrow;
use crate::values::at;
use rs_fixity::digests_of;
use rs_io::{Watched, WriteFault};
use rs_lists::{Piece, pieces_length, put_pieces, write_escaped};
use std::alloc::Global;
use std::test::Fail;

/// The text of the pieces below.
const TEXT: &[u8] = b"<a>x &amp; y010184467440737095516152000-02-29T00:00:00.000Z\
    md5:900150983cd24fb0d6963f7d28e17f72 sha-256:\
    ba7816bf8f01cfea414140de5dae2223b00361a396177a9cb410ff61f20015ad";

/// Returns the written text of the pieces.
fn written(alloc: Global, pieces: &[Piece<'_>]) -> Result<Vec<u8>, WriteFault> {
    let mut out = Watched::new(Vec::new(alloc));
    put_pieces(pieces, &mut out)?;
    Ok(out.into_inner())
}

#[test]
fn pieces_are_written_and_measured(rt: HostRuntime) -> Result<(), Fail> {
    let pieces = [
        Piece::Plain(b"<a>"),
        Piece::Escaped(b"x & y"),
        Piece::Number(0),
        Piece::Number(10),
        Piece::Number(u64::MAX),
        Piece::At(at(951_782_400_000)?),
        Piece::Hash(digests_of(b"abc")),
    ];
    assert_eq!(rt; written(rt.alloc(), &pieces)?.as_slice(), TEXT);
    assert_eq!(rt; pieces_length(&pieces), TEXT.len() as u64);
    for room in 0..TEXT.len() {
        let mut out = Watched::new(Narrow { room });
        assert_eq!(rt;
            put_pieces(&pieces, &mut out),
            Err(WriteFault),
            "room for {room}"
        );
        assert_eq!(rt; out.failures(), 1, "room for {room}");
    }
    Ok(())
}

#[test]
fn special_characters_are_references(rt: HostRuntime) -> Result<(), Fail> {
    const ESCAPED: &[u8] = b"&amp;a&apos;&quot;b&lt;&gt;";
    let mut out = Watched::new(Vec::new(rt.alloc()));
    write_escaped(b"&a'\"b<>", &mut out)?;
    assert_eq!(rt; out.into_inner().as_slice(), ESCAPED);
    for room in 0..ESCAPED.len() {
        let mut out = Watched::new(Narrow { room });
        assert_eq!(rt;
            write_escaped(b"&a'\"b<>", &mut out),
            Err(WriteFault),
            "room for {room}"
        );
    }
    Ok(())
}
