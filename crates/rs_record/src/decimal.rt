//! Decimal numbers, as lines, arguments and heads write them.

ghost use Rattle.std.specs.Prelude.{◌≡◌, ◌≤◌, length};
ghost use Rattle.std.specs.Fmt.{decimal};
ghost use Rattle.rs_record.specs.Decimal.{number_in};

/// Returns the number that `text` writes in 1 to `most` decimal digits, or `None` for any other text. Leading zeros are
/// digits.
#[tactic(auto, unfolding(crate::specs::Decimal::number_in))]
pub fn number(text: &[u8], most: usize) -> Option<u64>
    requires { most ≤ 18 }
    ensures { result ≡ number_in most text.now }
{
    if text.is_empty() || text.len() > most {
        return None;
    }
    let mut value = 0u64;
    for byte in text {
        if !byte.is_ascii_digit() {
            return None;
        }
        value = value * 10 + u64::from(*byte - b'0');
    }
    Some(value)
}

/// Returns the number of decimal digits of a number, without leading zeros.
pub fn count_digits(number: u64) -> u64
    ensures value { result ≡ length (decimal number) }
    ensures few { result ≤ 20 }
{
    match number.checked_ilog10() {
        Some(power) => power as u64 + 1,
        None => 1,
    }
}
