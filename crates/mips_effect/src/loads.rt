ghost use Rattle.std.specs.Prelude.{◌≡◌, ◌<◌, ◌≤◌, ◌^◌};
ghost use Rattle.mips_effect.specs.Effects.{IsAligned, merge_of};
ghost use Rattle.mips_instruction.specs.Numbers.{number_modulo_word, signed_8};
ghost use Rattle.mips_effect.specs.Arithmetic.{byte_in_word, half_of, left_merged, right_merged};

use crate::LoadKind;
use crate::sums::extended;

/// What a load writes into its register: from the aligned word around its address, and from what
/// the register had.
#[tactic(auto, unfolding(crate::specs::Effects::merge_of))]
pub fn merge(kind: LoadKind, old: u32, address: u32, word: u32) -> u32
    requires { IsAligned kind address }
    ensures { result ≡ merge_of kind old address word }
{
    let place = (address % 4) as u8;
    match kind {
        LoadKind::Byte => extended_byte(byte(word, place)),
        LoadKind::ByteU => u32::from(byte(word, place)),
        LoadKind::Half => extended(half(word, place)),
        LoadKind::HalfU => u32::from(half(word, place)),
        LoadKind::Word => word,
        LoadKind::Left => left(old, place, word),
        LoadKind::Right => right(old, place, word),
    }
}

/// The byte of a word at a place, 0 the highest.
fn byte(word: u32, place: u8) -> u8
    requires { place < 4 }
    ensures { result ≡ byte_in_word word place }
{
    (word >> (24 - 8 * place) & 0xff) as u8
}

/// The half-word of a word that begins at a place.
fn half(word: u32, place: u8) -> u16
    requires { place ≤ 2 }
    ensures { result ≡ half_of word place }
{
    (word >> (16 - 8 * place) & 0xffff) as u16
}

/// A byte, extended by its sign.
fn extended_byte(byte: u8) -> u32
    ensures { result ≡ number_modulo_word (signed_8 byte) }
{
    i32::from(byte.cast_signed()).cast_unsigned()
}

/// The bytes from the place on over the register's high end.
fn left(old: u32, place: u8, word: u32) -> u32
    requires { place < 4 }
    ensures { result ≡ left_merged old place word }
{
    match place {
        0 => word,
        1 => (word & 0xff_ffff) << 8 | old & 0xff,
        2 => (word & 0xffff) << 16 | old & 0xffff,
        _ => (word & 0xff) << 24 | old & 0xff_ffff,
    }
}

/// The bytes through the place over the register's low end.
fn right(old: u32, place: u8, word: u32) -> u32
    requires { place < 4 }
    ensures { result ≡ right_merged old place word }
{
    match place {
        0 => old >> 8 << 8 | word >> 24,
        1 => old >> 16 << 16 | word >> 16,
        2 => old >> 24 << 24 | word >> 8,
        _ => word,
    }
}
