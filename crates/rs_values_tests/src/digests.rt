//! Messages that come in pieces. The messages of RFC 1321 and FIPS 180-4 that fit on a line are in
//! tests/rows/digests.in.

use rs_fixity::{Digests, Hashing, Sha256Hashing, digests_of, hash_text, sha256_of};

/// Returns the text of the digests of `piece` repeated this many times, followed by `rest`.
fn text_in_pieces(times: u32, piece: &[u8], rest: &[u8]) -> [u8; 109] {
    let mut hashing = Hashing::new();
    for _ in 0..times {
        hashing.add(piece);
    }
    hashing.add(rest);
    hash_text(&hashing.done())
}

/// A million times `a`: the SHA-256 is of the examples of FIPS 180-4, the MD5 of Python's `hashlib`.
const MILLION: &[u8; 109] = b"md5:7707d6ae4e027c70eea2a935c2296f21 sha-256:\
      cdc76e5c9914fb9281a1c7e284d73e67f1809a48a497200e046d39ccc7112cd0";

#[test]
fn a_million_letters(rt: HostRuntime) {
    let letters = [b'a'; 1000];
    let even = text_in_pieces(1000, &letters, b"");
    assert_eq!(rt; even, *MILLION, "in pieces of 1000");
    let uneven = text_in_pieces(1003, &letters[..997], &letters[..9]);
    assert_eq!(rt; uneven, *MILLION, "in pieces of 997");
}

/// The bytes 0 to 129, by Python's `hashlib`.
const COUNTED: &[u8; 109] = b"md5:7c05c285d0263c40a0437421b387a2a1 sha-256:\
      8d39b60b9c767c58975b270c1d6b13c9b4507e5aee7ad496a3528e4c7f880721";

fn counted() -> [u8; 130] {
    let mut message = [0; 130];
    for i in 0..130 {
        message[i] = i as u8;
    }
    message
}

#[test]
fn a_message_cut_anywhere(rt: HostRuntime) {
    let message = counted();
    assert_eq!(rt; hash_text(&digests_of(&message)), *COUNTED);
    for at in 0..131 {
        let text = text_in_pieces(1, &message[..at], &message[at..]);
        assert_eq!(rt; text, *COUNTED, "cut at {at}");
    }
}

/// The example of FIPS 180-4 of one block.
const ABC: [u8; 32] = [
    0xba, 0x78, 0x16, 0xbf, 0x8f, 0x01, 0xcf, 0xea, 0x41, 0x41, 0x40, 0xde, 0x5d, 0xae, 0x22, 0x23,
    0xb0, 0x03, 0x61, 0xa3, 0x96, 0x17, 0x7a, 0x9c, 0xb4, 0x10, 0xff, 0x61, 0xf2, 0x00, 0x15, 0xad,
];

#[test]
fn the_sha256_alone(rt: HostRuntime) {
    assert_eq!(rt; sha256_of(b"abc"), ABC);
    let mut hashing = Sha256Hashing::new();
    for piece in [&b"a"[..], b"", b"bc"] {
        hashing.add(piece);
    }
    assert_eq!(rt; hashing.done(), ABC);
}

#[test]
fn the_digits_of_each_byte(rt: HostRuntime) {
    let digests = Digests {
        md5: [0, 1, 2, 3, 4, 5, 6, 7, 8, 9, 10, 11, 12, 13, 14, 15],
        sha256: [
            0xff, 0xfe, 0xfd, 0xfc, 0xfb, 0xfa, 0xf9, 0xf8, 0xf7, 0xf6, 0xf5, 0xf4, 0xf3, 0xf2,
            0xf1, 0xf0, 0x10, 0x20, 0x30, 0x40, 0x50, 0x60, 0x70, 0x80, 0x90, 0xa0, 0xb0, 0xc0,
            0xd0, 0xe0, 0xf0, 0x00,
        ],
    };
    assert_eq!(rt;
        hash_text(&digests),
        *b"md5:000102030405060708090a0b0c0d0e0f sha-256:\
          fffefdfcfbfaf9f8f7f6f5f4f3f2f1f0102030405060708090a0b0c0d0e0f000"
    );
}
