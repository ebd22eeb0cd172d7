ghost use Rattle.std.specs.Prelude.{◌≡◌, ◌<◌, ◌^◌, ◌∷◌, [], IfOk};
ghost use Rattle.mips_asm.specs.LabelMaps.{place_in};
ghost use Rattle.mips_asm.specs.Encoding.{AppendsFound, AreWords, TellsWhether, instruction_at, load_address, load_halves, load_number, operands_of};

use crate::fields::{operand_of, wrapped};
use crate::labels::Labels;
use crate::layout::in_range;
use asm_source::Argument;
use asm_tokens::Integer;
use mips_forms::{Operand, OperandKind, build, kinds};
use mips_instruction::Ins;
use mips_isa::{encode, fits};
use std::alloc::Global;
use xom_base::{List, NoMemory};

/// Writes the words of instructions, where each has its operands in their ranges. Nothing is written
/// before.
#[tactic(auto, using(crate::proofs::JoinLaws::AreWords_more, crate::proofs::JoinLaws::AreWords_fits))]
pub fn words(instructions: &[Ins], bytes: &mut Vec<u8>) -> Result<bool, NoMemory>
    requires { bytes.old.items ≡ [] }
    ensures { IfOk result (λ written. TellsWhether (AreWords instructions.now) written bytes.new.items) }
{
    for ins in instructions {
        if !fits(ins) {
            return Ok(false);
        }
        bytes.extend_from_slice(&encode(*ins).to_be_bytes())?;
    }
    Ok(true)
}

/// The instruction with this mnemonic and these operands, at `pc`.
#[tactic(auto, unfolding(crate::specs::Encoding::instruction_at))]
pub fn instruction_at(
    labels: &Labels,
    pc: u32,
    name: &[u8],
    arguments: &[Argument],
    operands: &mut Vec<Operand>,
) -> Result<Option<Ins>, NoMemory>
    requires { pc < 2 ^ 20 }
    ensures { IfOk result (λ ins. ins ≡ instruction_at (place_in labels.now) pc name.now arguments.now) }
{
    let Some(shape) = kinds(name) else {
        return Ok(None);
    };
    operands.clear();
    if !add_operands(labels, pc, shape, arguments, operands)? {
        return Ok(None);
    }
    Ok(build(name, operands.as_slice()))
}

/// Adds the operands of these kinds that are written so, and answers whether they all are.
#[tactic(auto, unfolding(crate::specs::Encoding::operands_of))]
fn add_operands(
    labels: &Labels,
    pc: u32,
    shape: &[OperandKind],
    arguments: &[Argument],
    operands: &mut Vec<Operand>,
) -> Result<bool, NoMemory>
    requires { pc < 2 ^ 20 }
    ensures { IfOk result (λ all. AppendsFound (operands_of (place_in labels.now) pc shape.now arguments.now) operands.old.items all operands.new.items) }
{
    let [kind, shape @ ..] = shape else {
        return Ok(arguments.is_empty());
    };
    let [argument, arguments @ ..] = arguments else {
        return Ok(false);
    };
    let Some(operand) = operand_of(labels, pc, *kind, argument) else {
        return Ok(false);
    };
    operands.push(operand)?;
    add_operands(labels, pc, shape, arguments, operands)
}

/// `li`: one instruction or two, or none where the number is out of its range.
#[tactic(auto, unfolding(crate::specs::Encoding::load_number))]
pub fn load_number(
    alloc: Global,
    register: u8,
    number: Integer,
) -> Result<Option<List<Ins>>, NoMemory>
    ensures { IfOk result (λ found. found ≡ load_number register number) }
{
    if in_range(0x8000, 0x7fff, number) {
        let imm = wrapped(16, number) as u16;
        return Ok(Some(one(
            alloc,
            Ins::Addiu {
                rt: register,
                rs: 0,
                imm,
            },
        )?));
    }
    if in_range(0, 0xffff, number) {
        let imm = number.magnitude as u16;
        return Ok(Some(one(
            alloc,
            Ins::Ori {
                rt: register,
                rs: 0,
                imm,
            },
        )?));
    }
    if in_range(0x8000_0000, 0xffff_ffff, number) {
        let word = wrapped(32, number) as u32;
        return Ok(Some(halves(alloc, register, word)?));
    }
    Ok(None)
}

/// `la`: the two halves of a label's place, or none where it is not below 2^32.
#[tactic(auto, unfolding(crate::specs::Encoding::load_address))]
pub fn load_address(
    alloc: Global,
    labels: &Labels,
    register: u8,
    name: &[u8],
) -> Result<Option<List<Ins>>, NoMemory>
    ensures { IfOk result (λ found. found ≡ load_address (place_in labels.now) register name.now) }
{
    match labels.place(name) {
        Some(place) if place <= 0xffff_ffff => Ok(Some(halves(alloc, register, place as u32)?)),
        _ => Ok(None),
    }
}

/// One instruction.
fn one(alloc: Global, ins: Ins) -> Result<List<Ins>, NoMemory>
    ensures { IfOk result (λ list. list ≡ ins ∷ []) }
{
    let mut list = List::new(alloc);
    list.push(ins)?;
    Ok(list)
}

/// The upper and the lower half of a number into a register.
fn halves(alloc: Global, register: u8, number: u32) -> Result<List<Ins>, NoMemory>
    ensures { IfOk result (λ list. list ≡ load_halves register number) }
{
    let upper = (number / 0x1_0000) as u16;
    let lower = (number % 0x1_0000) as u16;
    let mut list = List::new(alloc);
    list.push(Ins::Lui {
        rt: register,
        imm: upper,
    })?;
    list.push(Ins::Ori {
        rt: register,
        rs: register,
        imm: lower,
    })?;
    Ok(list)
}
