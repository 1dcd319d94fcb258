//! A root, and its bytes in a slot.
ghost use Rattle.std.specs.Prelude.{◌≡◌, ◌+◌, ◌≤◌, length, IsTrue};
ghost use Rattle.std.specs.Int.{from_be_bytes, w32, w64};
ghost use Rattle.rs_disk.specs.Medium.{over};
ghost use Rattle.rs_commit.specs.Slots.{field as field_of, version as version_of, payload_of, is_known as known, IsLawfulRoot};

use rs_extent::Extent;

/// The version of the format that formatting and every commit write. Versions 1 and 2 are known.
pub const VERSION: u8 = 2;

/// Returns whether this version of the format is known.
pub(crate) fn is_known(version: u8) -> bool
    ensures { result ≡ known version }
{
    1 <= version && version <= VERSION
}

/// The content of an open slot: the number of its commit, and the place of the directory.
#[derive(Clone, Copy, Debug, PartialEq, Eq)]
pub struct Root {
    /// The version of the format, 1 or 2, by which its directory is read.
    pub version: u8,
    /// The number of the commit, one more than that of the root before it. If both slots are
    /// open, the greater generation is the current root.
    pub generation: u64,
    /// The blocks of the directory.
    pub directory: Extent,
    /// The length of the directory in bytes.
    pub length: u32,
    /// The SHA-256 (FIPS 180-4) of the directory's bytes.
    pub sha256: [u8; 32],
}

/// Returns bytes 1 to 53 of a slot that holds this root.
pub(crate) fn payload(root: Root) -> [u8; 53]
    requires { IsTrue (known root.version) }
    ensures bytes { result ≡ payload_of root }
    ensures lawful { IsLawfulRoot root }
{
    let mut bytes = [0; 53];
    put(&mut bytes, 0, &[root.version]);
    put(&mut bytes, 1, &root.generation.to_be_bytes());
    put(&mut bytes, 9, &root.directory.first.to_be_bytes());
    put(&mut bytes, 13, &root.directory.blocks.to_be_bytes());
    put(&mut bytes, 17, &root.length.to_be_bytes());
    put(&mut bytes, 21, &root.sha256);
    bytes
}

/// Writes a field over the bytes from `at` on.
pub(crate) fn put(bytes: &mut [u8], at: usize, field: &[u8])
    requires { at + length field.now ≤ length bytes.old }
    ensures { bytes.new ≡ over bytes.old at field.now }
{
    bytes[at..at + field.len()].copy_from_slice(field);
}

/// Returns the root in the first 54 bytes of a slot. Its numbers are big endian.
pub(crate) fn root_in(bytes: &[u8; 54]) -> Root
    ensures version { result.version ≡ version_of bytes.now }
    ensures generation { result.generation ≡ from_be_bytes w64 (field_of bytes.now 2 8) }
    ensures first { result.directory.first ≡ from_be_bytes w32 (field_of bytes.now 10 4) }
    ensures blocks { result.directory.blocks ≡ from_be_bytes w32 (field_of bytes.now 14 4) }
    ensures length { result.length ≡ from_be_bytes w32 (field_of bytes.now 18 4) }
    ensures sha256 { result.sha256 ≡ field_of bytes.now 22 32 }
{
    Root {
        version: bytes[1],
        generation: u64::from_be_bytes(field(bytes, 2)),
        directory: Extent {
            first: u32::from_be_bytes(field(bytes, 10)),
            blocks: u32::from_be_bytes(field(bytes, 14)),
        },
        length: u32::from_be_bytes(field(bytes, 18)),
        sha256: field(bytes, 22),
    }
}

/// Returns the `N` bytes from `at` on.
fn field<const N: usize>(bytes: &[u8], at: usize) -> [u8; N]
    requires { at + N ≤ length bytes.now }
    ensures { result ≡ field_of bytes.now at N }
{
    let mut field = [0; N];
    field.copy_from_slice(&bytes[at..at + N]);
    field
}
