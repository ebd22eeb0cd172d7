ghost use Rattle.std.specs.Prelude.{◌≡◌, ◌↔◌, IsNone, Some};
ghost use Rattle.asm_tokens.specs.declared.integers.Integer.{Integer};
ghost use Rattle.asm_tokens.specs.Integers.{IsInteger, integer_of};

use crate::Integer;
use text_lines::number;

/// The whole number of a text: decimal digits of a number below 2^64, or `0x` and 1 to 16 hexadecimal
/// digits, and a `-` in front of them or none. None exactly where the text is no such number.
pub fn integer(text: &[u8]) -> Option<Integer>
    ensures exact { (i : Integer) → (result ≡ Some i) ↔ IsInteger text.now i }
    ensures none { IsNone result ↔ ((i : Integer) → ¬ IsInteger text.now i) }
    ensures value { result ≡ integer_of text.now }
{
    integer_in(text)
}

#[tactic(auto, unfolding(crate::specs::Integers::integer_of))]
fn integer_in(text: &[u8]) -> Option<Integer>
    ensures { result ≡ integer_of text.now }
{
    match text.split_first() {
        Some((b'-', digits)) => number(digits).map(|magnitude| Integer {
            negative: true,
            magnitude,
        }),
        _ => number(text).map(|magnitude| Integer {
            negative: false,
            magnitude,
        }),
    }
}
