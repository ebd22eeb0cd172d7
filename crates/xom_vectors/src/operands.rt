//! Operands as words: `$8`, `shift:5`, `signed:0xffff`, `unsigned:1`, `code:7`, `branch:1`, `jump:2`, and
//! `offset:4:8` for 4 from the address in `$8`. The numbers are those that stand in the instruction.

use crate::line::Line;
use mips_forms::{Operand, OperandKind, Operands};
use text_lines::number_below;

/// The operand that a word stands for.
pub fn operand(word: &str) -> Option<Operand> {
    if let Some(digits) = word.strip_prefix('$') {
        return Some(Operand::Register(number8(digits)?));
    }
    let (kind, digits) = word.split_once(':')?;
    match kind {
        "shift" => Some(Operand::Shift(number8(digits)?)),
        "signed" => Some(Operand::Signed(number16(digits)?)),
        "unsigned" => Some(Operand::Unsigned(number16(digits)?)),
        "code" => Some(Operand::Code(number32(digits)?)),
        "branch" => Some(Operand::Branch(number16(digits)?)),
        "jump" => Some(Operand::Jump(number32(digits)?)),
        "offset" => offset(digits),
        _ => None,
    }
}

fn offset(digits: &str) -> Option<Operand> {
    let (imm, base) = digits.split_once(':')?;
    Some(Operand::Offset {
        imm: number16(imm)?,
        base: number8(base)?,
    })
}

fn number8(digits: &str) -> Option<u8> {
    let number = number_below(digits.as_bytes(), 1 << 8)?;
    Some(number as u8)
}

fn number16(digits: &str) -> Option<u16> {
    let number = number_below(digits.as_bytes(), 1 << 16)?;
    Some(number as u16)
}

fn number32(digits: &str) -> Option<u32> {
    let number = number_below(digits.as_bytes(), 1 << 32)?;
    Some(number as u32)
}

/// Adds the words of operands.
pub fn push_operands(line: &mut Line, operands: Operands) {
    match operands {
        Operands::Empty => {}
        Operands::One(a) => push_operand(line, a),
        Operands::Two(a, b) => {
            push_operand(line, a);
            push_operand(line, b);
        }
        Operands::Three(a, b, c) => {
            push_operand(line, a);
            push_operand(line, b);
            push_operand(line, c);
        }
    }
}

fn push_operand(line: &mut Line, operand: Operand) {
    match operand {
        Operand::Register(number) => push_number(line, "$", u32::from(number)),
        Operand::Shift(amount) => push_number(line, "shift:", u32::from(amount)),
        Operand::Signed(imm) => push_number(line, "signed:", u32::from(imm)),
        Operand::Unsigned(imm) => push_number(line, "unsigned:", u32::from(imm)),
        Operand::Code(code) => push_number(line, "code:", code),
        Operand::Branch(imm) => push_number(line, "branch:", u32::from(imm)),
        Operand::Jump(index) => push_number(line, "jump:", index),
        Operand::Offset { imm, base } => {
            push_number(line, "offset:", u32::from(imm));
            line.join(":");
            line.join_number(u64::from(base));
        }
    }
}

fn push_number(line: &mut Line, name: &str, number: u32) {
    line.word(name);
    line.join_number(u64::from(number));
}

/// The name of a kind of operands.
pub fn kind_name(kind: OperandKind) -> &'static str {
    match kind {
        OperandKind::Register => "Register",
        OperandKind::Shift => "Shift",
        OperandKind::Signed => "Signed",
        OperandKind::Unsigned => "Unsigned",
        OperandKind::Code => "Code",
        OperandKind::Branch => "Branch",
        OperandKind::Jump => "Jump",
        OperandKind::Offset => "Offset",
    }
}
