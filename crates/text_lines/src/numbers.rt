ghost use Rattle.std.specs.Prelude.{◌≡◌, ◌↔◌, ◌<◌, ◌≤◌, ◌^◌, ℕ, IsNone, IfSome, Some};
ghost use Rattle.text_lines.specs.Numbers.{IsDecimal, IsNumber, WritesBelow, WritesCount, WritesDecimal, count_below_of, decimal_below_of, number_below_of, number_of_word, numeral_of};

/// The number of a word: decimal digits, leading zeros allowed, below 2^64, or `0x` and 1 to 16
/// hexadecimal digits in either case. None exactly where the word is no such number.
pub fn number(word: &[u8]) -> Option<u64>
    ensures exact { (n : ℕ) → (result ≡ Some n) ↔ IsNumber word.now n }
    ensures none { IsNone result ↔ ((n : ℕ) → ¬ IsNumber word.now n) }
    ensures value { result ≡ number_of_word word.now }
{
    number_in(word)
}

/// The number of a word, where it is below a bound.
pub fn number_below(word: &[u8], bound: u64) -> Option<u64>
    ensures exact { (n : ℕ) → (result ≡ Some n) ↔ WritesBelow bound word.now n }
    ensures small { IfSome result (λ n. n < bound) }
    ensures none { IsNone result ↔ ((n : ℕ) → ¬ WritesBelow bound word.now n) }
    ensures value { result ≡ number_below_of bound word.now }
{
    below(word, bound)
}

/// The number of a word, where it is from 1 on and below a bound: of a register, a slot, or a count of
/// few things.
pub fn count_below(word: &[u8], bound: u8) -> Option<u8>
    ensures exact { (n : ℕ) → (result ≡ Some n) ↔ WritesCount bound word.now n }
    ensures small { IfSome result (λ n. n < bound) }
    ensures none { IsNone result ↔ ((n : ℕ) → ¬ WritesCount bound word.now n) }
    ensures value { result ≡ count_below_of bound word.now }
{
    count_in(word, bound)
}

#[tactic(auto, unfolding(crate::specs::Numbers::count_below_of))]
fn count_in(word: &[u8], bound: u8) -> Option<u8>
    ensures { result ≡ count_below_of bound word.now }
{
    let n = number_below(word, u64::from(bound))?;
    (1 <= n).then_some(n as u8)
}

/// The number of a word, where it is below 2^32.
pub fn number32(word: &[u8]) -> Option<u32>
    ensures { result ≡ number_below_of (2 ^ 32) word.now }
{
    let n = number_below(word, 1 << 32)?;
    Some(n as u32)
}

/// The number of a decimal word: digits alone, leading zeros allowed, below 2^64. None exactly where
/// the word is no such number.
pub fn decimal(word: &[u8]) -> Option<u64>
    ensures exact { (n : ℕ) → (result ≡ Some n) ↔ IsDecimal word.now n }
    ensures none { IsNone result ↔ ((n : ℕ) → ¬ IsDecimal word.now n) }
    ensures value { result ≡ numeral_of 10 word.now }
{
    numeral(word, 10)
}

/// The number of a decimal word, where it is below a bound.
pub fn decimal_below(word: &[u8], bound: u64) -> Option<u64>
    ensures exact { (n : ℕ) → (result ≡ Some n) ↔ WritesDecimal bound word.now n }
    ensures small { IfSome result (λ n. n < bound) }
    ensures none { IsNone result ↔ ((n : ℕ) → ¬ WritesDecimal bound word.now n) }
    ensures value { result ≡ decimal_below_of bound word.now }
{
    decimal_in(word, bound)
}

#[tactic(auto, unfolding(crate::specs::Numbers::decimal_below_of))]
fn decimal_in(word: &[u8], bound: u64) -> Option<u64>
    ensures { result ≡ decimal_below_of bound word.now }
{
    numeral(word, 10).filter(|n| *n < bound)
}

#[tactic(auto, unfolding(crate::specs::Numbers::number_below_of))]
fn below(word: &[u8], bound: u64) -> Option<u64>
    ensures { result ≡ number_below_of bound word.now }
{
    number_in(word).filter(|n| *n < bound)
}

#[tactic(auto, unfolding(crate::specs::Numbers::number_of_word))]
fn number_in(word: &[u8]) -> Option<u64>
    ensures { result ≡ number_of_word word.now }
{
    if word.starts_with(b"0x") {
        if word.len() <= 18 {
            numeral(&word[2..], 16)
        } else {
            None
        }
    } else {
        numeral(word, 10)
    }
}

/// The number of a numeral of base 10 or 16, below 2^64.
fn numeral(word: &[u8], base: u32) -> Option<u64>
    requires least { 2 ≤ base }
    requires most { base ≤ 16 }
    ensures { result ≡ numeral_of base word.now }
{
    if word.starts_with(b"+") {
        return None;
    }
    let Ok(text) = str::from_utf8(word) else {
        return None;
    };
    u64::from_str_radix(text, base).ok()
}
