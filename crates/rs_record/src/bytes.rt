//! Kinds of bytes.

ghost use Rattle.std.specs.Prelude.{◌≡◌, ◌||◌};
ghost use Rattle.rs_record.specs.Bytes.{is_hex as hex_byte, is_one_of as one_of, is_letter as letter_byte, is_digit as digit_byte};

/// Returns whether the byte is a hexadecimal digit, of either case.
pub fn is_hex(byte: u8) -> bool
    ensures { result ≡ hex_byte byte }
{
    byte.is_ascii_hexdigit()
}

/// Returns whether the byte is a letter or a digit of ASCII.
pub fn is_alphanumeric(byte: u8) -> bool
    ensures { result ≡ letter_byte byte || digit_byte byte }
{
    byte.is_ascii_alphanumeric()
}

/// Returns whether the byte is one of these.
pub fn is_one_of(bytes: &[u8], byte: u8) -> bool
    ensures { result ≡ one_of bytes.now byte }
{
    bytes.contains(&byte)
}
