//! The text of two digests.

ghost use Rattle.std.specs.Prelude.{◌≡◌, ◌≤◌, ◌+◌, ◌*◌, ◌++◌, length, take, drop};
ghost use Rattle.rs_fixity.specs.HashText.{hash_text_of};
ghost use Rattle.rs_fixity.specs.Hex.{encode_lower};

use crate::Digests;

/// Returns the text of the digests in the form of the attribute `hash` of ResourceSync (ANSI/NISO Z39.99): `md5:` and
/// 32 digits, a space, `sha-256:` and 64 digits. All digits are hexadecimal and in lower case.
pub fn hash_text(digests: &Digests) -> [u8; 109]
    ensures { result ≡ hash_text_of digests.now }
{
    let mut text = *b"md5:00000000000000000000000000000000 sha-256:\
           0000000000000000000000000000000000000000000000000000000000000000";
    put_digits(&mut text, 4, &digests.md5);
    put_digits(&mut text, 45, &digests.sha256);
    text
}

/// Writes the bytes as pairs of hexadecimal digits over the text, from place `at` on.
fn put_digits(text: &mut [u8], at: usize, bytes: &[u8])
    requires { at + 2 * length bytes.now ≤ length text.old }
    ensures { text.new ≡
        take at text.old ++ encode_lower bytes.now ++ drop (at + 2 * length bytes.now) text.old }
{
    hex::encode_to_slice(bytes, &mut text[at..at + 2 * bytes.len()]).unwrap();
}
