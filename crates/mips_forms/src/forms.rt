ghost use Rattle.std.specs.Prelude.{◌≡◌, [], ◌∷◌};
ghost use Rattle.mips_forms.specs.Forms.{form_of, operand_list};

use crate::Operand::{Branch, Code, Jump, Offset, Register, Shift, Signed, Unsigned};
use crate::{Operand, Operands};
use mips_instruction::Ins;

/// The text of an instruction before it is laid out: a mnemonic and operands.
#[derive(Clone, Copy)]
pub struct TextForm {
    /// The mnemonic, in lower case.
    pub name: &'static str,
    /// What stands behind it.
    pub operands: Operands,
}

/// The mnemonic of an instruction, and its operands in the order of the text. The operands are not
/// looked at: one that doesn't fit its field is handed on as it is.
pub fn form(ins: Ins) -> TextForm
    ensures { form_of ins ≡ (result.name.now, operand_list result.operands) }
{
    match ins {
        Ins::Sll { rd, rt, sa } => three("sll", Register(rd), Register(rt), Shift(sa)),
        Ins::Srl { rd, rt, sa } => three("srl", Register(rd), Register(rt), Shift(sa)),
        Ins::Sra { rd, rt, sa } => three("sra", Register(rd), Register(rt), Shift(sa)),
        Ins::Sllv { rd, rt, rs } => three("sllv", Register(rd), Register(rt), Register(rs)),
        Ins::Srlv { rd, rt, rs } => three("srlv", Register(rd), Register(rt), Register(rs)),
        Ins::Srav { rd, rt, rs } => three("srav", Register(rd), Register(rt), Register(rs)),
        Ins::Jr { rs } => one("jr", Register(rs)),
        Ins::Jalr { rd, rs } => two("jalr", Register(rd), Register(rs)),
        Ins::Syscall { code } => one("syscall", Code(code)),
        Ins::Break { code } => one("break", Code(code)),
        Ins::Mfhi { rd } => one("mfhi", Register(rd)),
        Ins::Mthi { rs } => one("mthi", Register(rs)),
        Ins::Mflo { rd } => one("mflo", Register(rd)),
        Ins::Mtlo { rs } => one("mtlo", Register(rs)),
        Ins::Mult { rs, rt } => two("mult", Register(rs), Register(rt)),
        Ins::Multu { rs, rt } => two("multu", Register(rs), Register(rt)),
        Ins::Div { rs, rt } => two("div", Register(rs), Register(rt)),
        Ins::Divu { rs, rt } => two("divu", Register(rs), Register(rt)),
        Ins::Add { rd, rs, rt } => three("add", Register(rd), Register(rs), Register(rt)),
        Ins::Addu { rd, rs, rt } => three("addu", Register(rd), Register(rs), Register(rt)),
        Ins::Sub { rd, rs, rt } => three("sub", Register(rd), Register(rs), Register(rt)),
        Ins::Subu { rd, rs, rt } => three("subu", Register(rd), Register(rs), Register(rt)),
        Ins::And { rd, rs, rt } => three("and", Register(rd), Register(rs), Register(rt)),
        Ins::Or { rd, rs, rt } => three("or", Register(rd), Register(rs), Register(rt)),
        Ins::Xor { rd, rs, rt } => three("xor", Register(rd), Register(rs), Register(rt)),
        Ins::Nor { rd, rs, rt } => three("nor", Register(rd), Register(rs), Register(rt)),
        Ins::Slt { rd, rs, rt } => three("slt", Register(rd), Register(rs), Register(rt)),
        Ins::Sltu { rd, rs, rt } => three("sltu", Register(rd), Register(rs), Register(rt)),
        Ins::Bltz { rs, imm } => two("bltz", Register(rs), Branch(imm)),
        Ins::Bgez { rs, imm } => two("bgez", Register(rs), Branch(imm)),
        Ins::Bltzal { rs, imm } => two("bltzal", Register(rs), Branch(imm)),
        Ins::Bgezal { rs, imm } => two("bgezal", Register(rs), Branch(imm)),
        Ins::J { index } => one("j", Jump(index)),
        Ins::Jal { index } => one("jal", Jump(index)),
        Ins::Beq { rs, rt, imm } => three("beq", Register(rs), Register(rt), Branch(imm)),
        Ins::Bne { rs, rt, imm } => three("bne", Register(rs), Register(rt), Branch(imm)),
        Ins::Blez { rs, imm } => two("blez", Register(rs), Branch(imm)),
        Ins::Bgtz { rs, imm } => two("bgtz", Register(rs), Branch(imm)),
        Ins::Addi { rt, rs, imm } => three("addi", Register(rt), Register(rs), Signed(imm)),
        Ins::Addiu { rt, rs, imm } => three("addiu", Register(rt), Register(rs), Signed(imm)),
        Ins::Slti { rt, rs, imm } => three("slti", Register(rt), Register(rs), Signed(imm)),
        Ins::Sltiu { rt, rs, imm } => three("sltiu", Register(rt), Register(rs), Signed(imm)),
        Ins::Andi { rt, rs, imm } => three("andi", Register(rt), Register(rs), Unsigned(imm)),
        Ins::Ori { rt, rs, imm } => three("ori", Register(rt), Register(rs), Unsigned(imm)),
        Ins::Xori { rt, rs, imm } => three("xori", Register(rt), Register(rs), Unsigned(imm)),
        Ins::Lui { rt, imm } => two("lui", Register(rt), Unsigned(imm)),
        Ins::Lb { rt, imm, rs } => access("lb", rt, imm, rs),
        Ins::Lh { rt, imm, rs } => access("lh", rt, imm, rs),
        Ins::Lwl { rt, imm, rs } => access("lwl", rt, imm, rs),
        Ins::Lw { rt, imm, rs } => access("lw", rt, imm, rs),
        Ins::Lbu { rt, imm, rs } => access("lbu", rt, imm, rs),
        Ins::Lhu { rt, imm, rs } => access("lhu", rt, imm, rs),
        Ins::Lwr { rt, imm, rs } => access("lwr", rt, imm, rs),
        Ins::Sb { rt, imm, rs } => access("sb", rt, imm, rs),
        Ins::Sh { rt, imm, rs } => access("sh", rt, imm, rs),
        Ins::Swl { rt, imm, rs } => access("swl", rt, imm, rs),
        Ins::Sw { rt, imm, rs } => access("sw", rt, imm, rs),
        Ins::Swr { rt, imm, rs } => access("swr", rt, imm, rs),
        Ins::Xlwn { rt, imm, rs } => access("xlwn", rt, imm, rs),
        Ins::Xswn { rt, imm, rs } => access("xswn", rt, imm, rs),
        Ins::Xmvtn { rs } => one("xmvtn", Register(rs)),
        Ins::Xmvfn { rd, rs } => two("xmvfn", Register(rd), Register(rs)),
        Ins::Xexit => plain("xexit"),
        Ins::Xhand { rs } => one("xhand", Register(rs)),
        Ins::Xsigret => plain("xsigret"),
        Ins::Xinstall { rs, rt, rd } => three("xinstall", Register(rs), Register(rt), Register(rd)),
        Ins::Xenter { rs } => one("xenter", Register(rs)),
        Ins::Xresume { rs, rt } => two("xresume", Register(rs), Register(rt)),
        Ins::Xsave { rs, rt, rd } => three("xsave", Register(rs), Register(rt), Register(rd)),
        Ins::Xrestore { rs, rt, rd } => three("xrestore", Register(rs), Register(rt), Register(rd)),
        Ins::Xmap { rs, rt, rd } => three("xmap", Register(rs), Register(rt), Register(rd)),
        Ins::Xunmap { rs, rt } => two("xunmap", Register(rs), Register(rt)),
        Ins::Xkill { rs } => one("xkill", Register(rs)),
        Ins::Xout { rs } => one("xout", Register(rs)),
        Ins::Xhalt => plain("xhalt"),
        Ins::Xstat { rd } => one("xstat", Register(rd)),
        Ins::Xcause { rd } => one("xcause", Register(rd)),
        Ins::Xarg { rd } => one("xarg", Register(rd)),
        Ins::Xwho { rd } => one("xwho", Register(rd)),
    }
}

/// No operand.
fn plain(name: &'static str) -> TextForm
    ensures name { result.name.now ≡ name.now }
    ensures operands { operand_list result.operands ≡ [] }
{
    TextForm {
        name,
        operands: Operands::Empty,
    }
}

/// One operand.
fn one(name: &'static str, a: Operand) -> TextForm
    ensures name { result.name.now ≡ name.now }
    ensures operands { operand_list result.operands ≡ a ∷ [] }
{
    TextForm {
        name,
        operands: Operands::One(a),
    }
}

/// Two operands.
fn two(name: &'static str, a: Operand, b: Operand) -> TextForm
    ensures name { result.name.now ≡ name.now }
    ensures operands { operand_list result.operands ≡ a ∷ b ∷ [] }
{
    TextForm {
        name,
        operands: Operands::Two(a, b),
    }
}

/// Three operands.
fn three(name: &'static str, a: Operand, b: Operand, c: Operand) -> TextForm
    ensures name { result.name.now ≡ name.now }
    ensures operands { operand_list result.operands ≡ a ∷ b ∷ c ∷ [] }
{
    TextForm {
        name,
        operands: Operands::Three(a, b, c),
    }
}

/// A register, and an offset from a base register.
fn access(name: &'static str, a: u8, imm: u16, base: u8) -> TextForm
    ensures name { result.name.now ≡ name.now }
    ensures operands { operand_list result.operands ≡ Operand.Register a ∷ Operand.Offset imm base ∷ [] }
{
    two(name, Register(a), Offset { imm, base })
}
