ghost use Rattle.std.specs.Prelude.{◌≡◌, ◌<◌, ◌*◌, int_div, int_rem};
ghost use Rattle.mips_instruction.specs.Numbers.{number_modulo_word, signed_number};
ghost use Rattle.mips_effect.specs.Arithmetic.{divided_unsigned, pair_of_halves, product, quotient_and_remainder};

use xom_base::Writes;

/// The high half of a number for HI, and its low half for LO.
pub fn halves(n: u64) -> Writes
    ensures { result ≡ pair_of_halves n }
{
    Writes::Pair {
        hi: (n >> 32) as u32,
        lo: (n & 0xffff_ffff) as u32,
    }
}

/// The signed product, in 64 bits.
pub fn product(s: u32, t: u32) -> u64
    ensures { result ≡ product s t }
{
    (i64::from(s.cast_signed()) * i64::from(t.cast_signed())).cast_unsigned()
}

/// The unsigned product.
pub fn product_unsigned(s: u32, t: u32) -> u64
    ensures { result ≡ s * t }
{
    u64::from(s) * u64::from(t)
}

/// The signed remainder for HI and the signed quotient for LO; 0 has the dividend and 0 for these.
pub fn divided(s: u32, t: u32) -> Writes
    ensures { result ≡ quotient_and_remainder s t }
{
    if t == 0 {
        return undivided(s);
    }
    Writes::Pair {
        hi: remainder(s, t),
        lo: quotient(s, t),
    }
}

/// The unsigned remainder for HI and the unsigned quotient for LO.
pub fn divided_unsigned(s: u32, t: u32) -> Writes
    ensures { result ≡ divided_unsigned s t }
{
    if t == 0 {
        return undivided(s);
    }
    Writes::Pair {
        hi: s % t,
        lo: s / t,
    }
}

/// What a division by 0 gives.
fn undivided(s: u32) -> Writes
    ensures { result ≡ Writes.Pair s 0 }
{
    Writes::Pair { hi: s, lo: 0 }
}

/// The signed remainder, which has the dividend's sign.
fn remainder(s: u32, t: u32) -> u32
    requires { 0 < t }
    ensures { result ≡ number_modulo_word (int_rem (signed_number s) (signed_number t)) }
{
    s.cast_signed()
        .wrapping_rem(t.cast_signed())
        .cast_unsigned()
}

/// The signed quotient, towards zero. The least number divided by -1 is itself.
fn quotient(s: u32, t: u32) -> u32
    requires { 0 < t }
    ensures { result ≡ number_modulo_word (int_div (signed_number s) (signed_number t)) }
{
    s.cast_signed()
        .wrapping_div(t.cast_signed())
        .cast_unsigned()
}
