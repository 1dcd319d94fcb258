//! Values that more than one file of tests needs.

use rs_record::{Change, Name};
use rs_time::Moment;
use std::test::Fail;

/// The SHA-256 of no bytes (FIPS 180-4).
pub const SHA256_OF_NOTHING: [u8; 32] = [
    0xe3, 0xb0, 0xc4, 0x42, 0x98, 0xfc, 0x1c, 0x14, 0x9a, 0xfb, 0xf4, 0xc8, 0x99, 0x6f, 0xb9, 0x24,
    0x27, 0xae, 0x41, 0xe4, 0x64, 0x9b, 0x93, 0x4c, 0xa4, 0x95, 0x99, 0x1b, 0x78, 0x52, 0xb8, 0x55,
];

/// Returns the deletion of a name.
pub fn deletion(rt: &impl AllocGlobal, name: &[u8], ms: u64) -> Result<Change, Fail> {
    let moment = Moment::new(ms).ok_or("a moment")?;
    let name = Name::new(rt.alloc(), name)?;
    Ok(Change::deleted(name, moment))
}
