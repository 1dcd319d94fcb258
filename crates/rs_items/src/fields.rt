//! The fields of a line.

ghost use Rattle.std.specs.Prelude.{◌≡◌, ◌≤◌, ◌∷◌, [], ℕ, suc, drop, length, nat_eq, true, false, IfSome, IfNone, MatchOption};
ghost use Rattle.std.specs.List.{position, starts_with};
ghost use Rattle.rs_items.specs.Fields.{fields as fields_of, is_space};

/// Returns the place of the first space, or `None` if there is no space.
fn first_space(bytes: &[u8]) -> Option<usize>
    ensures { result ≡ position is_space bytes.now }
{
    bytes.iter().position(|b| *b == b' ')
}

/// Returns the first field of `bytes`, and the bytes after the space that ends it, or `None` if
/// `bytes` has no space.
pub fn split_field(bytes: &[u8]) -> Option<(&[u8], &[u8])>
    ensures none { IfNone result ((spaces : ℕ)
        → fields_of (suc spaces) bytes.now ≡ bytes.now ∷ []) }
    ensures some { IfSome result (λ parts. (spaces : ℕ)
        → fields_of (suc spaces) bytes.now ≡ parts.0.now ∷ fields_of spaces parts.1.now) }
{
    match first_space(bytes) {
        Some(i) => Some((&bytes[..i], &bytes[i + 1..])),
        None => None,
    }
}

/// Returns the bytes after `prefix`, or `None` if the bytes do not begin with it.
pub fn after<'a>(prefix: &[u8], bytes: &'a [u8]) -> Option<&'a [u8]>
    ensures { MatchOption result (starts_with nat_eq bytes.now prefix.now ≡ false)
        (λ rest. (starts_with nat_eq bytes.now prefix.now ≡ true)
        × (rest.now ≡ drop (length prefix.now) bytes.now)
        × (length prefix.now ≤ length bytes.now)) }
{
    bytes.strip_prefix(prefix)
}
