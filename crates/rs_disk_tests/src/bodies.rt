//! Bodies on a disk in memory, and the blocks that they need. The SHA-256 of no bytes is from NIST's examples for
//! FIPS 180-4, the others are from Python's `hashlib`.

use crate::images::image_is;
use rs_body::{
    LoadFault, blocks_for, is_intact, is_on_disk, is_sized, read_body, write_body, write_piece,
};
use rs_disk::{Disk, Fault, MemoryDisk};
use rs_extent::Extent;
use std::alloc::Global;
use std::process::Abort;
use std::test::Fail;

/// The length of a body whose byte at the place i is (7 i + 3) mod 251, the blocks that it needs, and the halves of its
/// SHA-256.
type Row = (u32, u32, u128, u128);

const BODIES: [Row; 6] = [
    (
        0,
        0,
        0xe3b0c44298fc1c149afbf4c8996fb924,
        0x27ae41e4649b934ca495991b7852b855,
    ),
    (
        1,
        1,
        0x084fed08b978af4d7d196a7446a86b58,
        0x009e636b611db16211b65a9aadff29c5,
    ),
    (
        511,
        1,
        0xbc689c6163bbc0f6255f52888ff6bda4,
        0x6cd51721b1ed93224c125f319b622408,
    ),
    (
        512,
        1,
        0xc1f09e258a6ef2531325a1aae79b0d42,
        0x4904f0357068a53862b63d2b90f3d1e3,
    ),
    (
        513,
        2,
        0x46ab69ce032e80e0cbfedff23adeb9f6,
        0x97c1cead92dc27411d61da466cbfa6a5,
    ),
    (
        5121,
        11,
        0xbc70b775868b024aa6293c5edbeab10d,
        0x98888130e42683faa61dfff04bd50fe3,
    ),
];

/// Returns a digest from its halves.
fn sha256(first: u128, last: u128) -> [u8; 32] {
    let mut digest = [0; 32];
    digest[..16].copy_from_slice(&first.to_be_bytes());
    digest[16..].copy_from_slice(&last.to_be_bytes());
    digest
}

/// Returns the body of this length.
fn body_of(alloc: Global, length: u32) -> Result<Vec<u8>, Fail> {
    let mut body = Vec::new(alloc);
    for i in 0..length {
        body.push(((7 * u64::from(i) + 3) % 251) as u8)?;
    }
    Ok(body)
}

/// Makes a disk of 8,192 bytes of 255, with these bytes from block 3 on.
fn with_body(rt: &(impl Abort + AllocGlobal), body: &[u8]) -> Vec<u8> {
    let mut bytes: Vec<u8> = vec![in rt.alloc(); 255; 3 * 512].expect(rt, "memory");
    bytes.extend_from_slice(body).expect(rt, "memory");
    bytes.resize(8192, 255).expect(rt, "memory");
    bytes
}

/// Writes a body, and checks that all other bytes stay: a crash may change the bytes of the body, and no others.
fn write_so(rt: &(impl Abort + AllocGlobal), disk: &mut MemoryDisk, extent: Extent, body: &[u8]) {
    assert!(rt; is_on_disk(extent, disk.size()));
    assert!(rt; body.len() <= 512 * extent.blocks as usize);
    assert_eq!(rt; write_body(disk, extent, body), Ok(()));
    assert!(rt; image_is(disk, &[], &with_body(rt, body)), "{extent:?}");
    let torn: Vec<u8> = vec![in rt.alloc(); 254; body.len()].expect(rt, "memory");
    assert!(rt; image_is(disk, &[254], &with_body(rt, &torn)), "{extent:?}");
}

/// Reads a body into a vector, in place of its old content.
fn read_so(
    rt: &impl Abort,
    disk: &mut MemoryDisk,
    extent: Extent,
    digest: &[u8; 32],
    into: &mut Vec<u8>,
    length: u32,
) -> Result<(), LoadFault> {
    assert!(rt; is_on_disk(extent, disk.size()));
    assert!(rt; u64::from(length) <= 512 * u64::from(extent.blocks));
    read_body(disk, extent, length, digest, into)
}

/// Writes the body of a row, reads it again, and reads it as one that has another digest.
fn is_kept(rt: &(impl Abort + AllocGlobal), disk: &mut MemoryDisk, row: &Row, body: &[u8]) {
    let (length, blocks, first, last) = *row;
    let extent = Extent { first: 3, blocks };
    write_so(rt, disk, extent, body);
    let mut into: Vec<u8> = vec![in rt.alloc(); 7; 14].expect(rt, "memory");
    let read = read_so(rt, disk, extent, &sha256(first, last), &mut into, length);
    assert_eq!(rt; (read, into.as_slice()), (Ok(()), body));
    assert_eq!(rt; disk.calls(), if length == 0 { 0 } else { 2 });
    let read = read_so(rt, disk, extent, &sha256(last, first), &mut into, length);
    assert_eq!(rt; (read, into.len()), (Err(LoadFault::Damaged), 0));
}

#[test]
fn bodies_are_read_back(rt: HostRuntime) -> Result<(), Fail> {
    for row in &BODIES {
        let body = body_of(rt.alloc(), row.0)?;
        let mut disk = MemoryDisk::from_bytes(rt.alloc(), &with_body(&rt, &[]))?;
        is_kept(&rt, &mut disk, row, &body);
    }
    Ok(())
}

/// Checks a body.
fn look_so(
    rt: &impl Abort,
    disk: &mut MemoryDisk,
    extent: Extent,
    length: u32,
    digest: &[u8; 32],
) -> Result<bool, Fault> {
    assert!(rt; is_on_disk(extent, disk.size()));
    assert!(rt; u64::from(length) <= 512 * u64::from(extent.blocks));
    is_intact(disk, extent, length, digest)
}

#[test]
fn large_bodies_are_looked_at_in_pieces(rt: HostRuntime) -> Result<(), Fail> {
    let digest = sha256(
        0x59c4516c8412e19369a4a7e7ae1501f5,
        0x5dc93e4c5b100ac11954277076fecf24,
    );
    let mut bytes = body_of(rt.alloc(), 40_000)?;
    bytes.resize(40_960, 255)?;
    let extent = Extent {
        first: 0,
        blocks: 80,
    };
    let mut disk = MemoryDisk::from_bytes(rt.alloc(), &bytes)?;
    assert_eq!(rt; look_so(&rt, &mut disk, extent, 40_000, &digest), Ok(true));
    assert_eq!(rt; disk.calls(), 3);
    bytes[39_999] ^= 1;
    let mut disk = MemoryDisk::from_bytes(rt.alloc(), &bytes)?;
    assert_eq!(rt; look_so(&rt, &mut disk, extent, 40_000, &digest), Ok(false));
    disk.stop_after(2);
    assert_eq!(rt;
        look_so(&rt, &mut disk, extent, 40_000, &digest),
        Err(Fault)
    );
    Ok(())
}

/// The place of a body of 1,113 bytes.
const PLACE: Extent = Extent {
    first: 3,
    blocks: 3,
};

/// The offsets at which the pieces of that body begin and end.
const PIECES: [(u32, u32); 3] = [(0, 512), (512, 513), (513, 1113)];

/// Writes the piece of a body from one byte to another.
fn piece_so(
    rt: &impl Abort,
    disk: &mut MemoryDisk,
    body: &[u8],
    (from, to): (u32, u32),
) -> Result<(), Fault> {
    assert!(rt; is_on_disk(PLACE, disk.size()));
    assert!(rt; from <= to && to <= 1113 && body.len() == 1113);
    write_piece(disk, PLACE, from, &body[from as usize..to as usize])
}

#[test]
fn pieces_are_read_as_one_body(rt: HostRuntime) -> Result<(), Fail> {
    let body = body_of(rt.alloc(), 1113)?;
    let mut disk = MemoryDisk::from_bytes(rt.alloc(), &with_body(&rt, &[]))?;
    for piece in PIECES {
        assert_eq!(rt; piece_so(&rt, &mut disk, &body, piece), Ok(()));
        let front = body_of(rt.alloc(), piece.1)?;
        assert!(rt; image_is(&disk, &[], &with_body(&rt, &front)), "{piece:?}");
    }
    let digest = sha256(
        0xeb7f5243cd2bec8092a8c03ee78bac90,
        0xe20afacc359e097241c03b268b72bdaf,
    );
    let mut into: Vec<u8> = Vec::new(rt.alloc());
    let read = read_so(&rt, &mut disk, PLACE, &digest, &mut into, 1113);
    assert_eq!(rt; (read, into.as_slice()), (Ok(()), body.as_slice()));
    assert_eq!(rt; disk.calls(), 4);
    Ok(())
}

#[test]
fn device_stops_at_the_second_piece(rt: HostRuntime) -> Result<(), Fail> {
    let body = body_of(rt.alloc(), 1113)?;
    let mut disk = MemoryDisk::from_bytes(rt.alloc(), &with_body(&rt, &[]))?;
    disk.stop_after(2);
    assert_eq!(rt; piece_so(&rt, &mut disk, &body, PIECES[0]), Ok(()));
    assert_eq!(rt; disk.sync(), Ok(()));
    assert_eq!(rt; piece_so(&rt, &mut disk, &body, PIECES[1]), Err(Fault));
    let mut left = body_of(rt.alloc(), 512)?;
    assert!(rt; image_is(&disk, &[], &with_body(&rt, &left)));
    left.push(254)?;
    assert!(rt; image_is(&disk, &[254], &with_body(&rt, &left)));
    Ok(())
}

/// A length in bytes, and the blocks that it needs.
const LENGTHS: [(u32, u32); 8] = [
    (0, 0),
    (1, 1),
    (511, 1),
    (512, 1),
    (513, 2),
    (5121, 11),
    (16_777_216, 32_768),
    (u32::MAX, 8_388_608),
];

/// The first block and the number of blocks of an extent, a length, and whether the extent has the size for it.
const SIZED: [(u32, u32, u32, bool); 8] = [
    (0, 0, 0, true),
    (2, 0, 0, false),
    (0, 1, 0, false),
    (0, 1, 512, true),
    (2, 1, 1, true),
    (2, 1, 513, false),
    (2, 2, 513, true),
    (2, 2, 512, false),
];

/// The first block and the number of blocks of an extent, the size of a disk, and whether the extent lies on the disk.
const ON_DISK: [(u32, u32, u64, bool); 8] = [
    (2, 1, 1536, true),
    (2, 1, 1535, false),
    (2, 2, 1536, false),
    (0, 3, 1536, true),
    (7, 0, 0, true),
    (u32::MAX, 1, 2_199_023_255_552, true),
    (u32::MAX, 1, 2_199_023_255_551, false),
    (u32::MAX, u32::MAX, u64::MAX, true),
];

#[test]
fn blocks_of_lengths(rt: HostRuntime) {
    for (length, blocks) in LENGTHS {
        assert_eq!(rt; blocks_for(length), blocks, "of {length} bytes");
    }
    for (first, blocks, length, wanted) in SIZED {
        let extent = Extent { first, blocks };
        assert_eq!(rt;
            is_sized(extent, length),
            wanted,
            "{extent:?} for {length} bytes"
        );
    }
}

#[test]
fn extents_on_a_disk(rt: HostRuntime) {
    for (first, blocks, size, wanted) in ON_DISK {
        let extent = Extent { first, blocks };
        assert_eq!(rt;
            is_on_disk(extent, size),
            wanted,
            "{extent:?} of {size} bytes"
        );
    }
}
