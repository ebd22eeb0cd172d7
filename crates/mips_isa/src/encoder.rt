ghost use Rattle.std.specs.Prelude.{◌≡◌, ◌<◌, ◌^◌, ◌↔◌, ℕ, IsTrue};
ghost use Rattle.mips_instruction.specs.Words.{Fits, Word, r_word, i_word};

use mips_instruction::Ins;

/// Whether each operand is in its range.
pub fn fits(ins: &Ins) -> bool
    ensures { IsTrue result ↔ Fits ins.now }
{
    match *ins {
        Ins::Sll { rd, rt, sa } => rd < 32 && rt < 32 && sa < 32,
        Ins::Srl { rd, rt, sa } => rd < 32 && rt < 32 && sa < 32,
        Ins::Sra { rd, rt, sa } => rd < 32 && rt < 32 && sa < 32,
        Ins::Sllv { rd, rt, rs } => rd < 32 && rt < 32 && rs < 32,
        Ins::Srlv { rd, rt, rs } => rd < 32 && rt < 32 && rs < 32,
        Ins::Srav { rd, rt, rs } => rd < 32 && rt < 32 && rs < 32,
        Ins::Jr { rs } => rs < 32,
        Ins::Jalr { rd, rs } => rd < 32 && rs < 32,
        Ins::Syscall { code } => code < 1 << 20,
        Ins::Break { code } => code < 1 << 20,
        Ins::Mfhi { rd } => rd < 32,
        Ins::Mthi { rs } => rs < 32,
        Ins::Mflo { rd } => rd < 32,
        Ins::Mtlo { rs } => rs < 32,
        Ins::Mult { rs, rt } => rs < 32 && rt < 32,
        Ins::Multu { rs, rt } => rs < 32 && rt < 32,
        Ins::Div { rs, rt } => rs < 32 && rt < 32,
        Ins::Divu { rs, rt } => rs < 32 && rt < 32,
        Ins::Add { rd, rs, rt } => rd < 32 && rs < 32 && rt < 32,
        Ins::Addu { rd, rs, rt } => rd < 32 && rs < 32 && rt < 32,
        Ins::Sub { rd, rs, rt } => rd < 32 && rs < 32 && rt < 32,
        Ins::Subu { rd, rs, rt } => rd < 32 && rs < 32 && rt < 32,
        Ins::And { rd, rs, rt } => rd < 32 && rs < 32 && rt < 32,
        Ins::Or { rd, rs, rt } => rd < 32 && rs < 32 && rt < 32,
        Ins::Xor { rd, rs, rt } => rd < 32 && rs < 32 && rt < 32,
        Ins::Nor { rd, rs, rt } => rd < 32 && rs < 32 && rt < 32,
        Ins::Slt { rd, rs, rt } => rd < 32 && rs < 32 && rt < 32,
        Ins::Sltu { rd, rs, rt } => rd < 32 && rs < 32 && rt < 32,
        Ins::Bltz { rs, imm: _imm } => rs < 32,
        Ins::Bgez { rs, imm: _imm } => rs < 32,
        Ins::Bltzal { rs, imm: _imm } => rs < 32,
        Ins::Bgezal { rs, imm: _imm } => rs < 32,
        Ins::J { index } => index < 1 << 26,
        Ins::Jal { index } => index < 1 << 26,
        Ins::Beq { rs, rt, imm: _imm } => rs < 32 && rt < 32,
        Ins::Bne { rs, rt, imm: _imm } => rs < 32 && rt < 32,
        Ins::Blez { rs, imm: _imm } => rs < 32,
        Ins::Bgtz { rs, imm: _imm } => rs < 32,
        Ins::Addi { rt, rs, imm: _imm } => rt < 32 && rs < 32,
        Ins::Addiu { rt, rs, imm: _imm } => rt < 32 && rs < 32,
        Ins::Slti { rt, rs, imm: _imm } => rt < 32 && rs < 32,
        Ins::Sltiu { rt, rs, imm: _imm } => rt < 32 && rs < 32,
        Ins::Andi { rt, rs, imm: _imm } => rt < 32 && rs < 32,
        Ins::Ori { rt, rs, imm: _imm } => rt < 32 && rs < 32,
        Ins::Xori { rt, rs, imm: _imm } => rt < 32 && rs < 32,
        Ins::Lui { rt, imm: _imm } => rt < 32,
        Ins::Lb { rt, imm: _imm, rs } => rt < 32 && rs < 32,
        Ins::Lh { rt, imm: _imm, rs } => rt < 32 && rs < 32,
        Ins::Lwl { rt, imm: _imm, rs } => rt < 32 && rs < 32,
        Ins::Lw { rt, imm: _imm, rs } => rt < 32 && rs < 32,
        Ins::Lbu { rt, imm: _imm, rs } => rt < 32 && rs < 32,
        Ins::Lhu { rt, imm: _imm, rs } => rt < 32 && rs < 32,
        Ins::Lwr { rt, imm: _imm, rs } => rt < 32 && rs < 32,
        Ins::Sb { rt, imm: _imm, rs } => rt < 32 && rs < 32,
        Ins::Sh { rt, imm: _imm, rs } => rt < 32 && rs < 32,
        Ins::Swl { rt, imm: _imm, rs } => rt < 32 && rs < 32,
        Ins::Sw { rt, imm: _imm, rs } => rt < 32 && rs < 32,
        Ins::Swr { rt, imm: _imm, rs } => rt < 32 && rs < 32,
        Ins::Xlwn { rt, imm: _imm, rs } => rt < 32 && rs < 32,
        Ins::Xswn { rt, imm: _imm, rs } => rt < 32 && rs < 32,
        Ins::Xmvtn { rs } => 1 <= rs && rs < 32,
        Ins::Xmvfn { rd, rs } => 1 <= rd && rd < 32 && 1 <= rs && rs < 32,
        Ins::Xexit => true,
        Ins::Xhand { rs } => rs < 32,
        Ins::Xsigret => true,
        Ins::Xinstall { rs, rt, rd } => rs < 32 && rt < 32 && rd < 32,
        Ins::Xenter { rs } => rs < 32,
        Ins::Xresume { rs, rt } => rs < 32 && rt < 32,
        Ins::Xsave { rs, rt, rd } => rs < 32 && rt < 32 && rd < 32,
        Ins::Xrestore { rs, rt, rd } => rs < 32 && rt < 32 && rd < 32,
        Ins::Xmap { rs, rt, rd } => rs < 32 && rt < 32 && rd < 32,
        Ins::Xunmap { rs, rt } => rs < 32 && rt < 32,
        Ins::Xkill { rs } => rs < 32,
        Ins::Xout { rs } => rs < 32,
        Ins::Xhalt => true,
        Ins::Xstat { rd } => rd < 32,
        Ins::Xcause { rd } => rd < 32,
        Ins::Xarg { rd } => rd < 32,
        Ins::Xwho { rd } => rd < 32,
    }
}

/// The one word of an instruction.
pub fn encode(ins: Ins) -> u32
    requires { Fits ins }
    ensures word { Word ins result }
    ensures only { (w : ℕ) → Word ins w → w ≡ result }
{
    match ins {
        Ins::Sll { rd, rt, sa } => registers(0, 0, rt, rd, sa, 0),
        Ins::Srl { rd, rt, sa } => registers(0, 0, rt, rd, sa, 2),
        Ins::Sra { rd, rt, sa } => registers(0, 0, rt, rd, sa, 3),
        Ins::Sllv { rd, rt, rs } => registers(0, rs, rt, rd, 0, 4),
        Ins::Srlv { rd, rt, rs } => registers(0, rs, rt, rd, 0, 6),
        Ins::Srav { rd, rt, rs } => registers(0, rs, rt, rd, 0, 7),
        Ins::Jr { rs } => registers(0, rs, 0, 0, 0, 8),
        Ins::Jalr { rd, rs } => registers(0, rs, 0, rd, 0, 9),
        Ins::Syscall { code } => code << 6 | 12,
        Ins::Break { code } => code << 6 | 13,
        Ins::Mfhi { rd } => registers(0, 0, 0, rd, 0, 16),
        Ins::Mthi { rs } => registers(0, rs, 0, 0, 0, 17),
        Ins::Mflo { rd } => registers(0, 0, 0, rd, 0, 18),
        Ins::Mtlo { rs } => registers(0, rs, 0, 0, 0, 19),
        Ins::Mult { rs, rt } => registers(0, rs, rt, 0, 0, 24),
        Ins::Multu { rs, rt } => registers(0, rs, rt, 0, 0, 25),
        Ins::Div { rs, rt } => registers(0, rs, rt, 0, 0, 26),
        Ins::Divu { rs, rt } => registers(0, rs, rt, 0, 0, 27),
        Ins::Add { rd, rs, rt } => registers(0, rs, rt, rd, 0, 32),
        Ins::Addu { rd, rs, rt } => registers(0, rs, rt, rd, 0, 33),
        Ins::Sub { rd, rs, rt } => registers(0, rs, rt, rd, 0, 34),
        Ins::Subu { rd, rs, rt } => registers(0, rs, rt, rd, 0, 35),
        Ins::And { rd, rs, rt } => registers(0, rs, rt, rd, 0, 36),
        Ins::Or { rd, rs, rt } => registers(0, rs, rt, rd, 0, 37),
        Ins::Xor { rd, rs, rt } => registers(0, rs, rt, rd, 0, 38),
        Ins::Nor { rd, rs, rt } => registers(0, rs, rt, rd, 0, 39),
        Ins::Slt { rd, rs, rt } => registers(0, rs, rt, rd, 0, 42),
        Ins::Sltu { rd, rs, rt } => registers(0, rs, rt, rd, 0, 43),
        Ins::Bltz { rs, imm } => immediate(1, rs, 0, imm),
        Ins::Bgez { rs, imm } => immediate(1, rs, 1, imm),
        Ins::Bltzal { rs, imm } => immediate(1, rs, 16, imm),
        Ins::Bgezal { rs, imm } => immediate(1, rs, 17, imm),
        Ins::J { index } => 2 << 26 | index,
        Ins::Jal { index } => 3 << 26 | index,
        Ins::Beq { rs, rt, imm } => immediate(4, rs, rt, imm),
        Ins::Bne { rs, rt, imm } => immediate(5, rs, rt, imm),
        Ins::Blez { rs, imm } => immediate(6, rs, 0, imm),
        Ins::Bgtz { rs, imm } => immediate(7, rs, 0, imm),
        Ins::Addi { rt, rs, imm } => immediate(8, rs, rt, imm),
        Ins::Addiu { rt, rs, imm } => immediate(9, rs, rt, imm),
        Ins::Slti { rt, rs, imm } => immediate(10, rs, rt, imm),
        Ins::Sltiu { rt, rs, imm } => immediate(11, rs, rt, imm),
        Ins::Andi { rt, rs, imm } => immediate(12, rs, rt, imm),
        Ins::Ori { rt, rs, imm } => immediate(13, rs, rt, imm),
        Ins::Xori { rt, rs, imm } => immediate(14, rs, rt, imm),
        Ins::Lui { rt, imm } => immediate(15, 0, rt, imm),
        Ins::Lb { rt, imm, rs } => immediate(32, rs, rt, imm),
        Ins::Lh { rt, imm, rs } => immediate(33, rs, rt, imm),
        Ins::Lwl { rt, imm, rs } => immediate(34, rs, rt, imm),
        Ins::Lw { rt, imm, rs } => immediate(35, rs, rt, imm),
        Ins::Lbu { rt, imm, rs } => immediate(36, rs, rt, imm),
        Ins::Lhu { rt, imm, rs } => immediate(37, rs, rt, imm),
        Ins::Lwr { rt, imm, rs } => immediate(38, rs, rt, imm),
        Ins::Sb { rt, imm, rs } => immediate(40, rs, rt, imm),
        Ins::Sh { rt, imm, rs } => immediate(41, rs, rt, imm),
        Ins::Swl { rt, imm, rs } => immediate(42, rs, rt, imm),
        Ins::Sw { rt, imm, rs } => immediate(43, rs, rt, imm),
        Ins::Swr { rt, imm, rs } => immediate(46, rs, rt, imm),
        Ins::Xlwn { rt, imm, rs } => immediate(50, rs, rt, imm),
        Ins::Xswn { rt, imm, rs } => immediate(58, rs, rt, imm),
        Ins::Xmvtn { rs } => registers(18, rs, 0, 0, 0, 1),
        Ins::Xmvfn { rd, rs } => registers(18, rs, 0, rd, 0, 2),
        Ins::Xexit => registers(18, 0, 0, 0, 0, 3),
        Ins::Xhand { rs } => registers(18, rs, 0, 0, 0, 4),
        Ins::Xsigret => registers(18, 0, 0, 0, 0, 5),
        Ins::Xinstall { rs, rt, rd } => registers(18, rs, rt, rd, 0, 16),
        Ins::Xenter { rs } => registers(18, rs, 0, 0, 0, 17),
        Ins::Xresume { rs, rt } => registers(18, rs, rt, 0, 0, 18),
        Ins::Xsave { rs, rt, rd } => registers(18, rs, rt, rd, 0, 19),
        Ins::Xrestore { rs, rt, rd } => registers(18, rs, rt, rd, 0, 20),
        Ins::Xmap { rs, rt, rd } => registers(18, rs, rt, rd, 0, 21),
        Ins::Xunmap { rs, rt } => registers(18, rs, rt, 0, 0, 22),
        Ins::Xkill { rs } => registers(18, rs, 0, 0, 0, 24),
        Ins::Xout { rs } => registers(18, rs, 0, 0, 0, 25),
        Ins::Xhalt => registers(18, 0, 0, 0, 0, 26),
        Ins::Xstat { rd } => registers(18, 0, 0, rd, 0, 27),
        Ins::Xcause { rd } => registers(18, 0, 0, rd, 0, 28),
        Ins::Xarg { rd } => registers(18, 0, 0, rd, 0, 29),
        Ins::Xwho { rd } => registers(18, 0, 0, rd, 0, 30),
    }
}

/// A word with the fields of three registers, a shift amount and a function.
fn registers(op: u8, rs: u8, rt: u8, rd: u8, sa: u8, function: u8) -> u32
    requires op { op < 2 ^ 6 }
    requires rs { rs < 32 }
    requires rt { rt < 32 }
    requires rd { rd < 32 }
    requires sa { sa < 32 }
    requires function { function < 2 ^ 6 }
    ensures { result ≡ r_word op rs rt rd sa function }
{
    let front = (u32::from(op) << 5 | u32::from(rs)) << 5 | u32::from(rt);
    ((front << 5 | u32::from(rd)) << 5 | u32::from(sa)) << 6 | u32::from(function)
}

/// A word with an immediate.
fn immediate(op: u8, rs: u8, rt: u8, imm: u16) -> u32
    requires op { op < 2 ^ 6 }
    requires rs { rs < 32 }
    requires rt { rt < 32 }
    ensures { result ≡ i_word op rs rt imm }
{
    ((u32::from(op) << 5 | u32::from(rs)) << 5 | u32::from(rt)) << 16 | u32::from(imm)
}
