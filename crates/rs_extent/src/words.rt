//! Rows of bits in words of 64 bits: the lowest bit of the first word is bit 0.
ghost use Rattle.std.specs.Prelude.{ℕ, ◌≡◌, ◌↔◌, ◌+◌, ◌-◌, ◌*◌, ◌^◌, ◌<◌, ◌≤◌, length, get_or, cond, IsTrue, MatchOption};
ghost use Rattle.std.specs.Int.{bit_at};
ghost use Rattle.rs_extent.specs.Words.{bit_of, IsSetRun, HasNoSetRun, IsLowestRun, SetsBits};

/// Gives the bits from `first` up to `end` a value, a word at a time.
pub fn set_bits(words: &mut [u64], first: usize, end: usize, value: bool)
    requires order { first ≤ end }
    requires room { end ≤ 64 * length words.old }
    requires short { length words.old ≤ 2 ^ 26 }
    ensures { SetsBits words.old words.new first end (cond value 1 0) }
{
    for i in first / 64..end.div_ceil(64) {
        let start = 64 * i;
        let (low, high) = (first.max(start) - start, end.min(start + 64) - start);
        words[i] = with_bits(words[i], low, high, value);
    }
}

/// Returns whether the bits from `first` up to `end` are all set.
pub fn all_set(words: &[u64], first: usize, end: usize) -> bool
    requires order { first ≤ end }
    requires room { end ≤ 64 * length words.now }
    requires short { length words.now ≤ 2 ^ 26 }
    ensures { IsTrue result ↔ IsSetRun (bit_of words.now) first (end - first) }
{
    for i in first / 64..end.div_ceil(64) {
        let start = 64 * i;
        let (low, high) = (first.max(start) - start, end.min(start + 64) - start);
        if !has_bits(words[i], low, high) {
            return false;
        }
    }
    true
}

/// Returns the lowest place from which `n` bits in a row are set. No bit is set below word `from`.
pub fn lowest_run(words: &[u64], from: usize, n: u32) -> Option<u32>
    requires some { 1 ≤ n }
    requires short { length words.now ≤ 2 ^ 26 }
    requires empty { (place : ℕ) → place < 64 * from → bit_of words.now place ≡ 0 }
    ensures { MatchOption result (HasNoSetRun (bit_of words.now) n)
        (IsLowestRun (bit_of words.now) n) }
{
    // The number of set bits right before the word.
    let mut run = 0;
    for i in from..words.len() {
        let word = words[i];
        let head = word.trailing_ones();
        if n - run <= head {
            return Some(64 * i as u32 - run);
        }
        if word == u64::MAX {
            run += 64;
        } else {
            if let Some(bit) = lowest_run_within(word, n) {
                return Some(64 * i as u32 + bit);
            }
            run = word.leading_ones();
        }
    }
    None
}

/// Returns the lowest bit of a word from which `n` bits in a row are set.
fn lowest_run_within(word: u64, n: u32) -> Option<u32>
    requires { 1 ≤ n }
    ensures { MatchOption result (HasNoSetRun (bit_at word) n) (IsLowestRun (bit_at word) n) }
{
    if 64 < n {
        return None;
    }
    let starts = run_starts(word, n);
    if starts == 0 {
        None
    } else {
        Some(starts.trailing_zeros())
    }
}

/// Returns the bits of a word from which `n` bits in a row are set.
fn run_starts(word: u64, n: u32) -> u64
    requires some { 1 ≤ n }
    requires fits { n ≤ 64 }
    ensures { (first : ℕ) → (bit_at result first ≡ 1) ↔ IsSetRun (bit_at word) first n }
{
    // From every bit of `starts`, `length` bits are set. A step joins two such runs that touch.
    let mut starts = word;
    let mut length = 1;
    while starts != 0 && length < n {
        let step = length.min(n - length);
        starts &= starts >> step;
        length += step;
    }
    starts
}

/// Returns a place, not before `from`, with only zero words in between: that of the first other
/// word, if it is among the next `most`.
///
/// A search may begin there. It needs only that no bit is set in between.
pub fn skip_zeros(words: &[u64], from: usize, most: u32) -> usize
    ensures { (i : ℕ) → from ≤ i → i < result → get_or words.now i 0 ≡ 0 }
{
    let mut at = from;
    for _ in 0..most {
        if at >= words.len() || words[at] != 0 {
            break;
        }
        at += 1;
    }
    at
}

/// Gives the bits of a word from `low` up to `high` a value.
fn with_bits(word: u64, low: usize, high: usize, value: bool) -> u64
    requires order { low ≤ high }
    requires fits { high ≤ 64 }
    ensures inside { (bit : ℕ) → low ≤ bit → bit < high → bit_at result bit ≡ cond value 1 0 }
    ensures below { (bit : ℕ) → bit < low → bit_at result bit ≡ bit_at word bit }
    ensures above { (bit : ℕ) → high ≤ bit → bit < 64 → bit_at result bit ≡ bit_at word bit }
{
    let mask = ones_between(low, high);
    if value { word | mask } else { word & !mask }
}

/// Returns whether the bits of a word from `low` up to `high` are all set.
fn has_bits(word: u64, low: usize, high: usize) -> bool
    requires order { low ≤ high }
    requires fits { high ≤ 64 }
    ensures { IsTrue result ↔ IsSetRun (bit_at word) low (high - low) }
{
    let mask = ones_between(low, high);
    word & mask == mask
}

/// Returns a word with the bits from `low` up to `high` set.
fn ones_between(low: usize, high: usize) -> u64
    requires order { low ≤ high }
    requires fits { high ≤ 64 }
    ensures { result ≡ 2 ^ high - 2 ^ low }
{
    ones_below(high) - ones_below(low)
}

/// Returns a word with its lowest `count` bits set.
fn ones_below(count: usize) -> u64
    requires { count ≤ 64 }
    ensures { result ≡ 2 ^ count - 1 }
{
    if count == 64 {
        u64::MAX
    } else {
        (1 << count) - 1
    }
}
