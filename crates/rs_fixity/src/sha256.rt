//! The SHA-256 of a message without its MD5, in one call or piece by piece.

ghost use Rattle.std.specs.Prelude.{◌≡◌, ℕ, List, [], ◌++◌};
ghost use Rattle.rs_fixity.specs.Digests.{digests};

use sha2::{Digest as _, Sha256};

/// Returns the SHA-256 (FIPS 180-4) of a whole message.
pub fn sha256_of(bytes: &[u8]) -> [u8; 32]
    ensures { result ≡ (digests bytes.now).sha256 }
{
    Sha256::digest(bytes)
}

/// Takes a message piece by piece, and then returns its SHA-256 (FIPS 180-4).
///
/// `HasTakenSha256` names the message that it holds: the pieces added so far, joined. The cuts between the pieces make
/// no difference.
#[derive(Drop)]
pub struct Sha256Hashing {
    sha256: Sha256,
}

impl Sha256Hashing {
    ghost use Rattle.rs_fixity.specs.Hashed.{HasTakenSha256};

    /// Returns a hasher that holds the empty message.
    pub fn new() -> Sha256Hashing
        ensures { HasTakenSha256 result [] }
    {
        Sha256Hashing {
            sha256: Sha256::new(),
        }
    }

    /// Adds the next piece, of any length.
    pub fn add(&mut self, piece: &[u8])
        ensures { (m : List ℕ) → HasTakenSha256 self.old m
            → HasTakenSha256 self.new (m ++ piece.now) }
    {
        self.sha256.update(piece);
    }

    /// Returns the SHA-256 of the message that it holds.
    pub fn done(self) -> [u8; 32]
        ensures { (m : List ℕ) → HasTakenSha256 self m → result ≡ (digests m).sha256 }
    {
        let Sha256Hashing { sha256 } = self;
        sha256.finalize()
    }
}
