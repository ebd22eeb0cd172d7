ghost use Rattle.std.specs.Prelude.{◌≡◌, ◌↔◌, ◌∷◌, [], MatchOption, false};
ghost use Rattle.std.specs.Str.{bytes_eq};
ghost use Rattle.mips_forms.specs.Forms.{FormTakes, IsNoMnemonic, form_of};
ghost use Rattle.mips_forms.specs.Builds.{access_rows, build_of, coded_rows, compare_rows, in_rows, jump_rows, kinds_of, plain_rows, register_rows, rows_of_shifts, signed_rows, slot_rows, sum_rows, test_rows, three_registers_rows, two_registers_rows, unsigned_rows, upper_rows};

use crate::OperandKind::{Branch, Code, Jump, Offset, Register, Shift, Signed, Unsigned};
use crate::letters::kinds_by_letter;
use crate::{Operand, OperandKind};
use mips_instruction::Ins;

/// The instruction with this mnemonic and these operands, in the order of the text, and None where
/// there is none. That the operands fit their fields isn't asked: `mips_isa::fits` tells.
pub fn build(name: &[u8], operands: &[Operand]) -> Option<Ins>
    ensures exact { (i : Ins) → (result ≡ Some i) ↔ (form_of i ≡ (name.now, operands.now)) }
    ensures value { result ≡ build_of name.now operands.now }
{
    found(name, operands)
}

/// The kinds of the operands that a mnemonic takes, in the order of the text, and None where no
/// instruction has that mnemonic.
pub fn kinds(name: &[u8]) -> Option<&'static [OperandKind]>
    ensures exact { MatchOption result (IsNoMnemonic name.now) (λ shape. FormTakes name.now shape.now) }
    ensures value { MatchOption result (kinds_of name.now ≡ None) (λ shape. kinds_of name.now ≡ Some shape.now) }
{
    found_kinds(name)
}

/// The kinds of a mnemonic's operands. Most are found by its first letter, so that is tried first.
fn found_kinds(name: &[u8]) -> Option<&'static [OperandKind]>
    ensures { MatchOption result (kinds_of name.now ≡ None) (λ shape. kinds_of name.now ≡ Some shape.now) }
{
    match kinds_by_letter(name) {
        Some(kinds) => Some(kinds),
        None => kinds_in_tables(name),
    }
}

/// The kinds of the tables in which this mnemonic stands.
#[tactic(auto, unfolding(crate::specs::Builds::kinds_of, crate::specs::Builds::rows_with_operands))]
fn kinds_in_tables(name: &[u8]) -> Option<&'static [OperandKind]>
    ensures { MatchOption result (kinds_of name.now ≡ None) (λ shape. kinds_of name.now ≡ Some shape.now) }
{
    if plain(name).is_some() {
        Some(&[])
    } else if register(name, 0).is_some() {
        Some(&[Register])
    } else if two_registers(name, 0, 0).is_some() {
        Some(&[Register, Register])
    } else if three_registers(name, 0, 0, 0).is_some() {
        Some(&[Register, Register, Register])
    } else if shift(name, 0, 0, 0).is_some() {
        Some(&[Register, Register, Shift])
    } else if signed(name, 0, 0, 0).is_some() {
        Some(&[Register, Register, Signed])
    } else if unsigned(name, 0, 0, 0).is_some() {
        Some(&[Register, Register, Unsigned])
    } else if upper(name, 0, 0).is_some() {
        Some(&[Register, Unsigned])
    } else if access(name, 0, 0, 0).is_some() {
        Some(&[Register, Offset])
    } else if compare(name, 0, 0, 0).is_some() {
        Some(&[Register, Register, Branch])
    } else if test(name, 0, 0).is_some() {
        Some(&[Register, Branch])
    } else if jump(name, 0).is_some() {
        Some(&[Jump])
    } else if coded(name, 0).is_some() {
        Some(&[Code])
    } else {
        None
    }
}

/// The row with this mnemonic among those of these operands.
#[tactic(auto, unfolding(crate::specs::Builds::rows_with_operands))]
fn found(name: &[u8], operands: &[Operand]) -> Option<Ins>
    ensures { result ≡ build_of name.now operands.now }
{
    match *operands {
        [] => plain(name),
        [Operand::Register(a)] => register(name, a),
        [Operand::Register(a), Operand::Register(b)] => two_registers(name, a, b),
        [
            Operand::Register(a),
            Operand::Register(b),
            Operand::Register(c),
        ] => three_registers(name, a, b, c),
        [
            Operand::Register(rd),
            Operand::Register(rt),
            Operand::Shift(sa),
        ] => shift(name, rd, rt, sa),
        [
            Operand::Register(rt),
            Operand::Register(rs),
            Operand::Signed(imm),
        ] => signed(name, rt, rs, imm),
        [
            Operand::Register(rt),
            Operand::Register(rs),
            Operand::Unsigned(imm),
        ] => unsigned(name, rt, rs, imm),
        [Operand::Register(rt), Operand::Unsigned(imm)] => upper(name, rt, imm),
        [Operand::Register(rt), Operand::Offset { imm, base: rs }] => access(name, rt, imm, rs),
        [
            Operand::Register(rs),
            Operand::Register(rt),
            Operand::Branch(imm),
        ] => compare(name, rs, rt, imm),
        [Operand::Register(rs), Operand::Branch(imm)] => test(name, rs, imm),
        [Operand::Jump(index)] => jump(name, index),
        [Operand::Code(code)] => coded(name, code),
        _ => None,
    }
}

/// No operand.
#[tactic(auto, unfolding(crate::specs::Builds::plain_rows))]
fn plain(name: &[u8]) -> Option<Ins>
    ensures { result ≡ in_rows name.now plain_rows }
{
    if is(name, b"xexit") {
        Some(Ins::Xexit)
    } else if is(name, b"xsigret") {
        Some(Ins::Xsigret)
    } else if is(name, b"xhalt") {
        Some(Ins::Xhalt)
    } else {
        None
    }
}

/// One register.
#[tactic(auto, unfolding(crate::specs::Builds::register_rows))]
pub(crate) fn register(name: &[u8], a: u8) -> Option<Ins>
    ensures { result ≡ in_rows name.now (register_rows a) }
{
    if is(name, b"jr") {
        Some(Ins::Jr { rs: a })
    } else if is(name, b"mfhi") {
        Some(Ins::Mfhi { rd: a })
    } else if is(name, b"mthi") {
        Some(Ins::Mthi { rs: a })
    } else if is(name, b"mflo") {
        Some(Ins::Mflo { rd: a })
    } else if is(name, b"mtlo") {
        Some(Ins::Mtlo { rs: a })
    } else if is(name, b"xmvtn") {
        Some(Ins::Xmvtn { rs: a })
    } else if is(name, b"xhand") {
        Some(Ins::Xhand { rs: a })
    } else if is(name, b"xenter") {
        Some(Ins::Xenter { rs: a })
    } else if is(name, b"xkill") {
        Some(Ins::Xkill { rs: a })
    } else if is(name, b"xout") {
        Some(Ins::Xout { rs: a })
    } else if is(name, b"xstat") {
        Some(Ins::Xstat { rd: a })
    } else if is(name, b"xcause") {
        Some(Ins::Xcause { rd: a })
    } else if is(name, b"xarg") {
        Some(Ins::Xarg { rd: a })
    } else if is(name, b"xwho") {
        Some(Ins::Xwho { rd: a })
    } else {
        None
    }
}

/// Two registers.
#[tactic(auto, unfolding(crate::specs::Builds::two_registers_rows))]
pub(crate) fn two_registers(name: &[u8], a: u8, b: u8) -> Option<Ins>
    ensures { result ≡ in_rows name.now (two_registers_rows a b) }
{
    if is(name, b"jalr") {
        Some(Ins::Jalr { rd: a, rs: b })
    } else if is(name, b"mult") {
        Some(Ins::Mult { rs: a, rt: b })
    } else if is(name, b"multu") {
        Some(Ins::Multu { rs: a, rt: b })
    } else if is(name, b"div") {
        Some(Ins::Div { rs: a, rt: b })
    } else if is(name, b"divu") {
        Some(Ins::Divu { rs: a, rt: b })
    } else if is(name, b"xmvfn") {
        Some(Ins::Xmvfn { rd: a, rs: b })
    } else if is(name, b"xresume") {
        Some(Ins::Xresume { rs: a, rt: b })
    } else if is(name, b"xunmap") {
        Some(Ins::Xunmap { rs: a, rt: b })
    } else {
        None
    }
}

/// Three registers.
#[tactic(auto, unfolding(crate::specs::Builds::three_registers_rows))]
pub(crate) fn three_registers(name: &[u8], rd: u8, rt: u8, rs: u8) -> Option<Ins>
    ensures { result ≡ in_rows name.now (three_registers_rows rd rt rs) }
{
    if is(name, b"sllv") {
        Some(Ins::Sllv { rd, rt, rs })
    } else if is(name, b"srlv") {
        Some(Ins::Srlv { rd, rt, rs })
    } else if is(name, b"srav") {
        Some(Ins::Srav { rd, rt, rs })
    } else {
        sum(name, rd, rt, rs)
    }
}

/// Three registers, the result first.
#[tactic(auto, unfolding(crate::specs::Builds::sum_rows))]
fn sum(name: &[u8], rd: u8, rs: u8, rt: u8) -> Option<Ins>
    ensures { result ≡ in_rows name.now (sum_rows rd rs rt) }
{
    if is(name, b"add") {
        Some(Ins::Add { rd, rs, rt })
    } else if is(name, b"addu") {
        Some(Ins::Addu { rd, rs, rt })
    } else if is(name, b"sub") {
        Some(Ins::Sub { rd, rs, rt })
    } else if is(name, b"subu") {
        Some(Ins::Subu { rd, rs, rt })
    } else if is(name, b"and") {
        Some(Ins::And { rd, rs, rt })
    } else if is(name, b"or") {
        Some(Ins::Or { rd, rs, rt })
    } else if is(name, b"xor") {
        Some(Ins::Xor { rd, rs, rt })
    } else if is(name, b"nor") {
        Some(Ins::Nor { rd, rs, rt })
    } else if is(name, b"slt") {
        Some(Ins::Slt { rd, rs, rt })
    } else if is(name, b"sltu") {
        Some(Ins::Sltu { rd, rs, rt })
    } else {
        slot(name, rd, rs, rt)
    }
}

/// Three registers, a slot first.
#[tactic(auto, unfolding(crate::specs::Builds::slot_rows))]
fn slot(name: &[u8], rs: u8, rt: u8, rd: u8) -> Option<Ins>
    ensures { result ≡ in_rows name.now (slot_rows rs rt rd) }
{
    if is(name, b"xinstall") {
        Some(Ins::Xinstall { rs, rt, rd })
    } else if is(name, b"xsave") {
        Some(Ins::Xsave { rs, rt, rd })
    } else if is(name, b"xrestore") {
        Some(Ins::Xrestore { rs, rt, rd })
    } else if is(name, b"xmap") {
        Some(Ins::Xmap { rs, rt, rd })
    } else {
        None
    }
}

/// Two registers and a shift amount.
#[tactic(auto, unfolding(crate::specs::Builds::rows_of_shifts))]
pub(crate) fn shift(name: &[u8], rd: u8, rt: u8, sa: u8) -> Option<Ins>
    ensures { result ≡ in_rows name.now (rows_of_shifts rd rt sa) }
{
    if is(name, b"sll") {
        Some(Ins::Sll { rd, rt, sa })
    } else if is(name, b"srl") {
        Some(Ins::Srl { rd, rt, sa })
    } else if is(name, b"sra") {
        Some(Ins::Sra { rd, rt, sa })
    } else {
        None
    }
}

/// Two registers and an immediate with its sign.
#[tactic(auto, unfolding(crate::specs::Builds::signed_rows))]
pub(crate) fn signed(name: &[u8], rt: u8, rs: u8, imm: u16) -> Option<Ins>
    ensures { result ≡ in_rows name.now (signed_rows rt rs imm) }
{
    if is(name, b"addi") {
        Some(Ins::Addi { rt, rs, imm })
    } else if is(name, b"addiu") {
        Some(Ins::Addiu { rt, rs, imm })
    } else if is(name, b"slti") {
        Some(Ins::Slti { rt, rs, imm })
    } else if is(name, b"sltiu") {
        Some(Ins::Sltiu { rt, rs, imm })
    } else {
        None
    }
}

/// Two registers and an immediate without a sign.
#[tactic(auto, unfolding(crate::specs::Builds::unsigned_rows))]
pub(crate) fn unsigned(name: &[u8], rt: u8, rs: u8, imm: u16) -> Option<Ins>
    ensures { result ≡ in_rows name.now (unsigned_rows rt rs imm) }
{
    if is(name, b"andi") {
        Some(Ins::Andi { rt, rs, imm })
    } else if is(name, b"ori") {
        Some(Ins::Ori { rt, rs, imm })
    } else if is(name, b"xori") {
        Some(Ins::Xori { rt, rs, imm })
    } else {
        None
    }
}

/// A register and an immediate without a sign.
#[tactic(auto, unfolding(crate::specs::Builds::upper_rows))]
pub(crate) fn upper(name: &[u8], rt: u8, imm: u16) -> Option<Ins>
    ensures { result ≡ in_rows name.now (upper_rows rt imm) }
{
    if is(name, b"lui") {
        Some(Ins::Lui { rt, imm })
    } else {
        None
    }
}

/// A register, and an offset from a base register.
#[tactic(auto, unfolding(crate::specs::Builds::access_rows))]
pub(crate) fn access(name: &[u8], rt: u8, imm: u16, rs: u8) -> Option<Ins>
    ensures { result ≡ in_rows name.now (access_rows rt imm rs) }
{
    if is(name, b"lb") {
        Some(Ins::Lb { rt, imm, rs })
    } else if is(name, b"lh") {
        Some(Ins::Lh { rt, imm, rs })
    } else if is(name, b"lwl") {
        Some(Ins::Lwl { rt, imm, rs })
    } else if is(name, b"lw") {
        Some(Ins::Lw { rt, imm, rs })
    } else if is(name, b"lbu") {
        Some(Ins::Lbu { rt, imm, rs })
    } else if is(name, b"lhu") {
        Some(Ins::Lhu { rt, imm, rs })
    } else if is(name, b"lwr") {
        Some(Ins::Lwr { rt, imm, rs })
    } else if is(name, b"sb") {
        Some(Ins::Sb { rt, imm, rs })
    } else if is(name, b"sh") {
        Some(Ins::Sh { rt, imm, rs })
    } else if is(name, b"swl") {
        Some(Ins::Swl { rt, imm, rs })
    } else if is(name, b"sw") {
        Some(Ins::Sw { rt, imm, rs })
    } else if is(name, b"swr") {
        Some(Ins::Swr { rt, imm, rs })
    } else if is(name, b"xlwn") {
        Some(Ins::Xlwn { rt, imm, rs })
    } else if is(name, b"xswn") {
        Some(Ins::Xswn { rt, imm, rs })
    } else {
        None
    }
}

/// Two registers and a branch target.
#[tactic(auto, unfolding(crate::specs::Builds::compare_rows))]
pub(crate) fn compare(name: &[u8], rs: u8, rt: u8, imm: u16) -> Option<Ins>
    ensures { result ≡ in_rows name.now (compare_rows rs rt imm) }
{
    if is(name, b"beq") {
        Some(Ins::Beq { rs, rt, imm })
    } else if is(name, b"bne") {
        Some(Ins::Bne { rs, rt, imm })
    } else {
        None
    }
}

/// A register and a branch target.
#[tactic(auto, unfolding(crate::specs::Builds::test_rows))]
pub(crate) fn test(name: &[u8], rs: u8, imm: u16) -> Option<Ins>
    ensures { result ≡ in_rows name.now (test_rows rs imm) }
{
    if is(name, b"bltz") {
        Some(Ins::Bltz { rs, imm })
    } else if is(name, b"bgez") {
        Some(Ins::Bgez { rs, imm })
    } else if is(name, b"bltzal") {
        Some(Ins::Bltzal { rs, imm })
    } else if is(name, b"bgezal") {
        Some(Ins::Bgezal { rs, imm })
    } else if is(name, b"blez") {
        Some(Ins::Blez { rs, imm })
    } else if is(name, b"bgtz") {
        Some(Ins::Bgtz { rs, imm })
    } else {
        None
    }
}

/// A jump target.
#[tactic(auto, unfolding(crate::specs::Builds::jump_rows))]
pub(crate) fn jump(name: &[u8], index: u32) -> Option<Ins>
    ensures { result ≡ in_rows name.now (jump_rows index) }
{
    if is(name, b"j") {
        Some(Ins::J { index })
    } else if is(name, b"jal") {
        Some(Ins::Jal { index })
    } else {
        None
    }
}

/// A code.
#[tactic(auto, unfolding(crate::specs::Builds::coded_rows))]
fn coded(name: &[u8], code: u32) -> Option<Ins>
    ensures { result ≡ in_rows name.now (coded_rows code) }
{
    if is(name, b"syscall") {
        Some(Ins::Syscall { code })
    } else if is(name, b"break") {
        Some(Ins::Break { code })
    } else {
        None
    }
}

/// Whether two texts are the same. Most texts differ in their lengths or first bytes, so these are
/// compared first.
#[inline(always)]
#[tactic(auto, using(crate::proofs::FormTable::other_length))]
pub fn is(name: &[u8], text: &[u8]) -> bool
    ensures { result ≡ bytes_eq name.now text.now }
{
    if name.len() != text.len() {
        return false;
    }
    begin_alike(name, text) && name == text
}

/// Whether two texts have the same first byte, or one of them has none.
#[inline(always)]
fn begin_alike(name: &[u8], text: &[u8]) -> bool
    ensures { result ≡ false → bytes_eq name.now text.now ≡ false }
{
    match (name, text) {
        ([first, ..], [initial, ..]) => first == initial,
        _ => true,
    }
}
