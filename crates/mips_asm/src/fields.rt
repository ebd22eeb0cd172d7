ghost use Rattle.std.specs.Prelude.{◌≡◌, ◌≤◌, ◌<◌, ◌%◌, ◌^◌, IfSome};
ghost use Rattle.mips_asm.specs.LabelMaps.{place_in};
ghost use Rattle.mips_asm.specs.Encoding.{branch_field, distance, field_of, instruction_address, jump_field, offset_field, operand_of, signed_immediate, twos_complement, unsigned_below, value_number};

use crate::labels::Labels;
use crate::layout::in_range;
use asm_source::{Argument, Value};
use asm_tokens::Integer;
use mips_forms::{Operand, OperandKind};

/// What a value stands for.
pub fn number_of(labels: &Labels, value: &Value) -> Option<Integer>
    ensures { result ≡ value_number (place_in labels.now) value.now }
{
    match value {
        Value::Number(number) => Some(*number),
        Value::Label(name) => {
            let place = labels.place(name.as_slice())?;
            Some(Integer {
                negative: false,
                magnitude: place,
            })
        }
    }
}

/// A number as it stands in so many bits, in two's complement. It fits them, with a sign or without.
pub fn wrapped(bits: u32, number: Integer) -> u64
    requires few { bits ≤ 32 }
    requires fits { number.magnitude < 2 ^ bits }
    ensures value { result ≡ twos_complement bits number }
    ensures small { result < 2 ^ bits }
{
    let end = 1 << bits;
    if number.negative {
        (end - number.magnitude) % end
    } else {
        number.magnitude % end
    }
}

/// The number itself, where it is from 0 to high.
pub fn unsigned_below(high: u64, number: Integer) -> Option<u64>
    ensures value { result ≡ unsigned_below high number }
    ensures small { IfSome result (λ n. n ≤ high) }
{
    in_range(0, high, number).then_some(number.magnitude)
}

/// An immediate from -32768 to 32767.
fn signed_immediate(number: Integer) -> Option<u16>
    ensures { result ≡ signed_immediate number }
{
    if !in_range(0x8000, 0x7fff, number) {
        return None;
    }
    Some(wrapped(16, number) as u16)
}

/// The address of an instruction.
fn address_of(number: Integer) -> Option<u32>
    ensures { result ≡ instruction_address number }
{
    if !in_range(0, 0xffff_ffff, number) || number.magnitude % 4 != 0 {
        return None;
    }
    Some(number.magnitude as u32)
}

/// The field of a branch at `pc` to an address, where it reaches that far.
fn branch_field(pc: u32, address: u32) -> Option<u16>
    requires { pc < 2 ^ 20 }
    ensures { result ≡ branch_field pc address }
{
    let distance = distance(pc, address);
    if distance >= 1 << 17 && distance < 0xfffe_0000 {
        return None;
    }
    Some((distance / 4 % 0x1_0000) as u16)
}

/// How far an address lies behind the instruction after the one at `pc`, modulo 2^32.
fn distance(pc: u32, address: u32) -> u32
    requires { pc < 2 ^ 20 }
    ensures { result ≡ distance pc address }
{
    address.wrapping_sub(pc + 4)
}

/// The field of a jump at `pc` to an address, where it reaches it.
fn jump_field(pc: u32, address: u32) -> Option<u32>
    requires { pc < 2 ^ 20 }
    ensures { result ≡ jump_field pc address }
{
    if address / 0x1000_0000 != (pc + 4) / 0x1000_0000 {
        return None;
    }
    Some(address % 0x1000_0000 / 4)
}

/// The operand of this kind that stands for a number, in the instruction at `pc`.
#[tactic(auto, unfolding(crate::specs::Encoding::field_of))]
fn field_of(pc: u32, kind: OperandKind, number: Integer) -> Option<Operand>
    requires { pc < 2 ^ 20 }
    ensures { result ≡ field_of pc kind number }
{
    match kind {
        OperandKind::Shift => Some(Operand::Shift(unsigned_below(31, number)? as u8)),
        OperandKind::Signed => Some(Operand::Signed(signed_immediate(number)?)),
        OperandKind::Unsigned => Some(Operand::Unsigned(unsigned_below(0xffff, number)? as u16)),
        OperandKind::Code => Some(Operand::Code(unsigned_below(0xf_ffff, number)? as u32)),
        OperandKind::Branch => Some(Operand::Branch(branch_field(pc, address_of(number)?)?)),
        OperandKind::Jump => Some(Operand::Jump(jump_field(pc, address_of(number)?)?)),
        OperandKind::Register | OperandKind::Offset => None,
    }
}

/// An offset from its base register.
fn offset_field(base: u8, number: Integer) -> Option<Operand>
    ensures { result ≡ offset_field base number }
{
    let imm = signed_immediate(number)?;
    Some(Operand::Offset { imm, base })
}

/// The operand of this kind that is written so, in the instruction at `pc`.
#[tactic(auto, unfolding(crate::specs::Encoding::operand_of))]
pub fn operand_of(
    labels: &Labels,
    pc: u32,
    kind: OperandKind,
    argument: &Argument,
) -> Option<Operand>
    requires { pc < 2 ^ 20 }
    ensures { result ≡ operand_of (place_in labels.now) pc kind argument.now }
{
    match argument {
        Argument::Register(register) => Some(Operand::Register(*register)),
        Argument::Value(value) => field_of(pc, kind, number_of(labels, value)?),
        Argument::Offset(value, base) => offset_field(*base, number_of(labels, value)?),
        Argument::Text(_) => None,
    }
}
