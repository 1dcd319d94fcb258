//! The fixity of bytes: their MD5 and SHA-256, found in one call or piece by piece, and the text of both.
//!
//! No function here takes memory.
#![tactic(auto)]

mod hashing;
pub mod laws;
mod sha256;
mod text;

pub use hashing::{Hashing, digests_of};
pub use sha256::{Sha256Hashing, sha256_of};
pub use text::hash_text;

/// The two digests of a message.
#[derive(Clone, Copy, Debug, PartialEq, Eq)]
pub struct Digests {
    /// The MD5 of RFC 1321. It reveals damage by chance, not damage on purpose.
    pub md5: [u8; 16],
    /// The SHA-256 of FIPS 180-4.
    pub sha256: [u8; 32],
}
