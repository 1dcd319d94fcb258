//! A directory with two pages in one list, in both versions of the format.

use crate::values::SHA256_OF_NOTHING;
use rs_directory::{Directory, directory_bytes, directory_size, read_directory};
use rs_extent::Extent;
use rs_page::PageRef;
use rs_record::ValueFault;
use std::process::Abort;
use std::test::Fail;

// The SHA-256 of `abc` (FIPS 180-4).
const SHA256_OF_ABC: [u8; 32] = [
    0xba, 0x78, 0x16, 0xbf, 0x8f, 0x01, 0xcf, 0xea, 0x41, 0x41, 0x40, 0xde, 0x5d, 0xae, 0x22, 0x23,
    0xb0, 0x03, 0x61, 0xa3, 0x96, 0x17, 0x7a, 0x9c, 0xb4, 0x10, 0xff, 0x61, 0xf2, 0x00, 0x15, 0xad,
];

// Limit 2; the base after its length; start, last, publication number 3 and its moment.
const FRONT: [u8; 56] = [
    0x00, 0x02, 0x15, b'h', b't', b't', b'p', b':', b'/', b'/', b'1', b'2', b'7', b'.', b'0', b'.',
    b'0', b'.', b'1', b':', b'8', b'0', b'8', b'0', 0x00, 0x00, 0x00, 0x00, 0x00, 0x00, 0x03, 0xe8,
    0x00, 0x00, 0x00, 0xdd, 0x9a, 0xa6, 0xe0, 0x00, 0x00, 0x00, 0x00, 0x00, 0x00, 0x00, 0x00, 0x03,
    0x00, 0x00, 0x00, 0xdc, 0x6a, 0xcf, 0xac, 0x00,
];

// First kept part 2; the moment one millisecond before the publication. Version 2 has both.
const HISTORY: [u8; 16] = [
    0x00, 0x00, 0x00, 0x00, 0x00, 0x00, 0x00, 0x02, 0x00, 0x00, 0x00, 0xdc, 0x6a, 0xcf, 0xab, 0xff,
];

// First kept part 0; the start. So version 2 spells out the values that version 1 omits.
const WHOLE_HISTORY: [u8; 16] = [
    0x00, 0x00, 0x00, 0x00, 0x00, 0x00, 0x00, 0x00, 0x00, 0x00, 0x00, 0x00, 0x00, 0x00, 0x03, 0xe8,
];

// No catalogue page, no change page, two published pages; the entries of the two.
const PAGES_BYTES: [u8; 100] = [
    0x00, 0x00, 0x00, 0x00, 0x00, 0x00, 0x00, 0x00, 0x00, 0x00, 0x00, 0x02, 0x00, 0x00, 0x00, 0x07,
    0x00, 0x00, 0x00, 0x01, 0x00, 0x00, 0x00, 0x58, 0xba, 0x78, 0x16, 0xbf, 0x8f, 0x01, 0xcf, 0xea,
    0x41, 0x41, 0x40, 0xde, 0x5d, 0xae, 0x22, 0x23, 0xb0, 0x03, 0x61, 0xa3, 0x96, 0x17, 0x7a, 0x9c,
    0xb4, 0x10, 0xff, 0x61, 0xf2, 0x00, 0x15, 0xad, 0x00, 0x00, 0x00, 0x08, 0x00, 0x00, 0x00, 0x02,
    0x00, 0x00, 0x02, 0x01, 0xe3, 0xb0, 0xc4, 0x42, 0x98, 0xfc, 0x1c, 0x14, 0x9a, 0xfb, 0xf4, 0xc8,
    0x99, 0x6f, 0xb9, 0x24, 0x27, 0xae, 0x41, 0xe4, 0x64, 0x9b, 0x93, 0x4c, 0xa4, 0x95, 0x99, 0x1b,
    0x78, 0x52, 0xb8, 0x55,
];

/// Returns a directory of version 1.
fn version_one() -> [u8; 156] {
    let mut bytes = [0; 156];
    bytes[..56].copy_from_slice(&FRONT);
    bytes[56..].copy_from_slice(&PAGES_BYTES);
    bytes
}

/// Returns a directory of version 2.
fn version_two(history: &[u8; 16]) -> [u8; 172] {
    let mut bytes = [0; 172];
    bytes[..56].copy_from_slice(&FRONT);
    bytes[56..72].copy_from_slice(history);
    bytes[72..].copy_from_slice(&PAGES_BYTES);
    bytes
}

const PAGES: [PageRef; 2] = [
    PageRef {
        extent: Extent {
            first: 7,
            blocks: 1,
        },
        length: 88,
        sha256: SHA256_OF_ABC,
    },
    PageRef {
        extent: Extent {
            first: 8,
            blocks: 2,
        },
        length: 513,
        sha256: SHA256_OF_NOTHING,
    },
];

/// Checks that a directory was read with these pages, this first kept part and this begin.
fn is_read(rt: &impl Abort, read: &Directory, first: u64, begin: u64) {
    assert!(rt; read.catalogue.is_empty() && read.changes.is_empty());
    assert_eq!(rt; read.published.as_slice(), PAGES.as_slice());
    assert_eq!(rt; read.header.start.ms(), 1000);
    assert_eq!(rt; read.header.first, first);
    assert_eq!(rt; read.header.begin.ms(), begin);
}

/// Spells a directory that was read again, in version 2.
fn is_spelled(
    rt: &(impl Abort + AllocGlobal),
    read: &Directory,
    history: &[u8; 16],
) -> Result<(), Fail> {
    let header = &read.header;
    assert_eq!(rt; directory_size(header, 2), 172);
    assert_eq!(rt; directory_size(header, 150_000), 6_600_084);
    let bytes = directory_bytes(rt.alloc(), header, &[], &[], &PAGES)?;
    assert_eq!(rt; bytes.as_slice(), version_two(history).as_slice());
    Ok(())
}

#[test]
fn a_directory_names_two_pages_of_a_list(rt: HostRuntime) -> Result<(), Fail> {
    let read = read_directory(rt.alloc(), 2, &version_two(&HISTORY))?;
    is_read(&rt, &read, 2, 946_684_799_999);
    is_spelled(&rt, &read, &HISTORY)
}

#[test]
fn a_directory_of_version_one_has_all_its_history(rt: HostRuntime) -> Result<(), Fail> {
    let read = read_directory(rt.alloc(), 1, &version_one())?;
    is_read(&rt, &read, 0, 1000);
    is_spelled(&rt, &read, &WHOLE_HISTORY)
}

#[test]
fn a_directory_is_of_one_version(rt: HostRuntime) {
    let one = read_directory(rt.alloc(), 2, &version_one());
    assert!(rt; matches!(one, Err(ValueFault::Malformed)));
    let two = read_directory(rt.alloc(), 1, &version_two(&HISTORY));
    assert!(rt; matches!(two, Err(ValueFault::Malformed)));
}
