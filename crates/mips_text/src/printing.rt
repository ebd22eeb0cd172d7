ghost use Rattle.std.specs.Prelude.{◌≡◌, ◌++◌, map, OnOk, IfOk, codes};
ghost use Rattle.std.specs.List.{AllByRecursion};
ghost use Rattle.mips_instruction.specs.Words.{Fits};
ghost use Rattle.mips_forms.specs.Forms.{InRange, operand_list};
ghost use Rattle.mips_text.specs.Texts.{comma_joined, instruction_text, offset_text, operand_text, operands_text};

use crate::pieces::{push_address, push_immediate, push_register};
use mips_effect::{after, jump_target, target};
use mips_forms::{Operand, Operands, form};
use mips_instruction::Ins;
use std::alloc::Global;
use text_pieces::{push_decimal, push_text};
use xom_base::{ByteList, NoMemory};

/// The text of the instruction at the address `pc`, with all its operands: registers as `$n`,
/// immediates and codes in decimal, with a sign where they have one, targets as `0x` and 8
/// hexadecimal digits.
pub fn print(alloc: Global, ins: Ins, pc: u32) -> Result<ByteList, NoMemory>
    requires { Fits ins }
    ensures { IfOk result (λ text. text ≡ instruction_text ins pc) }
{
    let mut text = Vec::new(alloc);
    push_instruction(&mut text, ins, pc)?;
    Ok(ByteList::from_vec(text))
}

/// Adds the text of the instruction at an address. Where memory runs out, a part of it may stand
/// there already.
#[tactic(auto, unfolding(crate::specs::Texts::instruction_text), using(mips_forms::proofs::FormTable::operands_fit))]
pub fn push_instruction(text: &mut Vec<u8>, ins: Ins, pc: u32) -> Result<(), NoMemory>
    requires { Fits ins }
    ensures { OnOk result (text.new.items ≡ text.old.items ++ instruction_text ins pc) }
{
    let form = form(ins);
    push_text(text, form.name)?;
    push_behind(text, form.operands, pc)
}

/// Adds a space and the operands, or nothing where there are none.
fn push_behind(text: &mut Vec<u8>, operands: Operands, pc: u32) -> Result<(), NoMemory>
    requires { AllByRecursion InRange (operand_list operands) }
    ensures { OnOk result (text.new.items ≡ text.old.items ++ operands_text (map (operand_text pc) (operand_list operands))) }
{
    match operands {
        Operands::Empty => Ok(()),
        Operands::One(a) => {
            push_text(text, " ")?;
            push_operand(text, a, pc)
        }
        Operands::Two(a, b) => {
            push_text(text, " ")?;
            push_operand(text, a, pc)?;
            push_next(text, b, pc)
        }
        Operands::Three(a, b, c) => {
            push_text(text, " ")?;
            push_operand(text, a, pc)?;
            push_next(text, b, pc)?;
            push_next(text, c, pc)
        }
    }
}

/// Adds an operand that isn't the first.
fn push_next(text: &mut Vec<u8>, operand: Operand, pc: u32) -> Result<(), NoMemory>
    requires { InRange operand }
    ensures { OnOk result (text.new.items ≡ text.old.items ++ (codes ", " ++ operand_text pc operand)) }
{
    push_text(text, ", ")?;
    push_operand(text, operand, pc)
}

/// Adds an operand of the instruction at an address.
fn push_operand(text: &mut Vec<u8>, operand: Operand, pc: u32) -> Result<(), NoMemory>
    requires { InRange operand }
    ensures { OnOk result (text.new.items ≡ text.old.items ++ operand_text pc operand) }
{
    match operand {
        Operand::Register(reg) => push_register(text, reg),
        Operand::Shift(amount) => push_decimal(text, u32::from(amount)),
        Operand::Signed(imm) => push_immediate(text, imm),
        Operand::Unsigned(imm) => push_decimal(text, u32::from(imm)),
        Operand::Code(code) => push_decimal(text, code),
        Operand::Branch(imm) => push_address(text, target(after(pc), imm)),
        Operand::Jump(index) => push_address(text, jump_target(after(pc), index)),
        Operand::Offset { imm, base } => push_offset(text, imm, base),
    }
}

/// Adds an offset from a base register.
fn push_offset(text: &mut Vec<u8>, imm: u16, base: u8) -> Result<(), NoMemory>
    ensures { OnOk result (text.new.items ≡ text.old.items ++ offset_text imm base) }
{
    push_immediate(text, imm)?;
    push_text(text, "(")?;
    push_register(text, base)?;
    push_text(text, ")")
}
