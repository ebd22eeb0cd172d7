ghost use Rattle.std.specs.Prelude.{◌≡◌, ◌↔◌, ◌<◌, ◌∷◌, [], ℕ, IsNone, IfSome, Some, map, position};
ghost use Rattle.std.specs.Str.{bytes_eq};
ghost use Rattle.asm_tokens.specs.Registers.{IsRegister, register_of};

/// The texts of the registers: their numbers, then their names.
const TEXTS: [&[u8]; 64] = [
    b"$0", b"$1", b"$2", b"$3", b"$4", b"$5", b"$6", b"$7", b"$8", b"$9", b"$10", b"$11", b"$12",
    b"$13", b"$14", b"$15", b"$16", b"$17", b"$18", b"$19", b"$20", b"$21", b"$22", b"$23", b"$24",
    b"$25", b"$26", b"$27", b"$28", b"$29", b"$30", b"$31", b"$zero", b"$at", b"$v0", b"$v1",
    b"$a0", b"$a1", b"$a2", b"$a3", b"$t0", b"$t1", b"$t2", b"$t3", b"$t4", b"$t5", b"$t6", b"$t7",
    b"$s0", b"$s1", b"$s2", b"$s3", b"$s4", b"$s5", b"$s6", b"$s7", b"$t8", b"$t9", b"$k0", b"$k1",
    b"$gp", b"$sp", b"$fp", b"$ra",
];

/// The register, 0 to 31, that a text names: `$0` to `$31`, or by its name, as `$sp`. None exactly
/// where the text is none of these.
pub fn register(text: &[u8]) -> Option<u8>
    ensures exact { (r : ℕ) → (result ≡ Some r) ↔ IsRegister text.now r }
    ensures none { IsNone result ↔ ((r : ℕ) → ¬ IsRegister text.now r) }
    ensures small { IfSome result (λ r. r < 32) }
    ensures value { result ≡ register_of text.now }
{
    register_in(text)
}

/// The register of a text. Most texts are a number, or a letter and a digit, so these are read first.
fn register_in(text: &[u8]) -> Option<u8>
    ensures { result ≡ register_of text.now }
{
    match numbered(text) {
        Some(register) => Some(register),
        None => listed(text),
    }
}

/// The register of a number below 30, or of a letter and a digit. None says nothing.
fn numbered(text: &[u8]) -> Option<u8>
    ensures { IfSome result (λ r. register_of text.now ≡ Some r) }
{
    let [dollar, rest @ ..] = text else {
        return None;
    };
    if *dollar != b'$' {
        return None;
    }
    match rest {
        [digit] => one_digit(*digit),
        [first, digit] => two_bytes(*first, *digit),
        _ => None,
    }
}

/// The register of `$` and a digit.
#[tactic(auto, using(crate::proofs::NumberedRegisters::ones))]
fn one_digit(digit: u8) -> Option<u8>
    ensures { IfSome result (λ r. register_of (36 ∷ digit ∷ []) ≡ Some r) }
{
    if digit < b'0' || b'9' < digit {
        return None;
    }
    Some(digit - b'0')
}

/// The register of `$`, a digit or a letter, and a digit.
#[tactic(auto, using(crate::proofs::NumberedRegisters::tens, crate::proofs::NumberedRegisters::temporary, crate::proofs::NumberedRegisters::saved, crate::proofs::NumberedRegisters::given))]
fn two_bytes(first: u8, digit: u8) -> Option<u8>
    ensures { IfSome result (λ r. register_of (36 ∷ first ∷ digit ∷ []) ≡ Some r) }
{
    if digit < b'0' || b'9' < digit {
        return None;
    }
    if first == b'1' || first == b'2' {
        Some((first - b'0') * 10 + (digit - b'0'))
    } else if first == b't' && digit < b'8' {
        Some(digit - b'0' + 8)
    } else if first == b's' && digit < b'8' {
        Some(digit - b'0' + 16)
    } else if first == b'a' && digit < b'4' {
        Some(digit - b'0' + 4)
    } else {
        None
    }
}

/// The register of a text by the table.
fn listed(text: &[u8]) -> Option<u8>
    ensures { result ≡ register_of text.now }
{
    let place = place_of(&TEXTS, text)?;
    Some((place % 32) as u8)
}

/// The first place of a text in a table.
fn place_of(table: &[&[u8]], text: &[u8]) -> Option<usize>
    ensures { result ≡ position (λ known. bytes_eq known text.now) (map (λ known. known.now) table.now) }
{
    first_place(table, text)
}

fn first_place(table: &[&[u8]], text: &[u8]) -> Option<usize>
    ensures { result ≡ position (λ known. bytes_eq known.now text.now) table.now }
{
    table.iter().position(|known| *known == text)
}
