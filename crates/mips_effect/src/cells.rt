ghost use Rattle.std.specs.Prelude.{◌≡◌, ◌<◌};
ghost use Rattle.mips_instruction.specs.Words.{Fits};
ghost use Rattle.mips_effect.specs.Effects.{sources_of};

use mips_instruction::Ins;

/// The cells that an instruction reads: `rs` in the first place, `rt` in the second, `rd` in the
/// third, and 0 in a place that isn't read. For `mfhi` and `mflo` the first place is HI, cell 32, or
/// LO, cell 33.
#[tactic(auto, unfolding(crate::specs::Effects::sources_of))]
pub fn sources(ins: Ins) -> (u8, u8, u8)
    requires { Fits ins }
    ensures value { result ≡ sources_of ins }
    ensures first { result.0 < 34 }
    ensures second { result.1 < 34 }
    ensures third { result.2 < 34 }
{
    match ins {
        Ins::Sll { rt, .. } => (0, rt, 0),
        Ins::Srl { rt, .. } => (0, rt, 0),
        Ins::Sra { rt, .. } => (0, rt, 0),
        Ins::Sllv { rt, rs, .. } => (rs, rt, 0),
        Ins::Srlv { rt, rs, .. } => (rs, rt, 0),
        Ins::Srav { rt, rs, .. } => (rs, rt, 0),
        Ins::Jr { rs } => (rs, 0, 0),
        Ins::Jalr { rs, .. } => (rs, 0, 0),
        Ins::Syscall { .. } => (0, 0, 0),
        Ins::Break { .. } => (0, 0, 0),
        Ins::Mfhi { .. } => (32, 0, 0),
        Ins::Mthi { rs } => (rs, 0, 0),
        Ins::Mflo { .. } => (33, 0, 0),
        Ins::Mtlo { rs } => (rs, 0, 0),
        Ins::Mult { rs, rt } => (rs, rt, 0),
        Ins::Multu { rs, rt } => (rs, rt, 0),
        Ins::Div { rs, rt } => (rs, rt, 0),
        Ins::Divu { rs, rt } => (rs, rt, 0),
        Ins::Add { rs, rt, .. } => (rs, rt, 0),
        Ins::Addu { rs, rt, .. } => (rs, rt, 0),
        Ins::Sub { rs, rt, .. } => (rs, rt, 0),
        Ins::Subu { rs, rt, .. } => (rs, rt, 0),
        Ins::And { rs, rt, .. } => (rs, rt, 0),
        Ins::Or { rs, rt, .. } => (rs, rt, 0),
        Ins::Xor { rs, rt, .. } => (rs, rt, 0),
        Ins::Nor { rs, rt, .. } => (rs, rt, 0),
        Ins::Slt { rs, rt, .. } => (rs, rt, 0),
        Ins::Sltu { rs, rt, .. } => (rs, rt, 0),
        Ins::Bltz { rs, .. } => (rs, 0, 0),
        Ins::Bgez { rs, .. } => (rs, 0, 0),
        Ins::Bltzal { rs, .. } => (rs, 0, 0),
        Ins::Bgezal { rs, .. } => (rs, 0, 0),
        Ins::J { .. } => (0, 0, 0),
        Ins::Jal { .. } => (0, 0, 0),
        Ins::Beq { rs, rt, .. } => (rs, rt, 0),
        Ins::Bne { rs, rt, .. } => (rs, rt, 0),
        Ins::Blez { rs, .. } => (rs, 0, 0),
        Ins::Bgtz { rs, .. } => (rs, 0, 0),
        Ins::Addi { rs, .. } => (rs, 0, 0),
        Ins::Addiu { rs, .. } => (rs, 0, 0),
        Ins::Slti { rs, .. } => (rs, 0, 0),
        Ins::Sltiu { rs, .. } => (rs, 0, 0),
        Ins::Andi { rs, .. } => (rs, 0, 0),
        Ins::Ori { rs, .. } => (rs, 0, 0),
        Ins::Xori { rs, .. } => (rs, 0, 0),
        Ins::Lui { .. } => (0, 0, 0),
        Ins::Lb { rs, .. } => (rs, 0, 0),
        Ins::Lh { rs, .. } => (rs, 0, 0),
        Ins::Lwl { rt, rs, .. } => (rs, rt, 0),
        Ins::Lw { rs, .. } => (rs, 0, 0),
        Ins::Lbu { rs, .. } => (rs, 0, 0),
        Ins::Lhu { rs, .. } => (rs, 0, 0),
        Ins::Lwr { rt, rs, .. } => (rs, rt, 0),
        Ins::Sb { rt, rs, .. } => (rs, rt, 0),
        Ins::Sh { rt, rs, .. } => (rs, rt, 0),
        Ins::Swl { rt, rs, .. } => (rs, rt, 0),
        Ins::Sw { rt, rs, .. } => (rs, rt, 0),
        Ins::Swr { rt, rs, .. } => (rs, rt, 0),
        Ins::Xlwn { rs, .. } => (rs, 0, 0),
        Ins::Xswn { rt, rs, .. } => (rs, rt, 0),
        Ins::Xmvtn { rs } => (rs, 0, 0),
        Ins::Xmvfn { rs, .. } => (rs, 0, 0),
        Ins::Xexit => (0, 0, 0),
        Ins::Xhand { rs } => (rs, 0, 0),
        Ins::Xsigret => (0, 0, 0),
        Ins::Xinstall { rs, rt, rd } => (rs, rt, rd),
        Ins::Xenter { rs } => (rs, 0, 0),
        Ins::Xresume { rs, rt } => (rs, rt, 0),
        Ins::Xsave { rs, rt, rd } => (rs, rt, rd),
        Ins::Xrestore { rs, rt, rd } => (rs, rt, rd),
        Ins::Xmap { rs, rt, rd } => (rs, rt, rd),
        Ins::Xunmap { rs, rt } => (rs, rt, 0),
        Ins::Xkill { rs } => (rs, 0, 0),
        Ins::Xout { rs } => (rs, 0, 0),
        Ins::Xhalt => (0, 0, 0),
        Ins::Xstat { .. } => (0, 0, 0),
        Ins::Xcause { .. } => (0, 0, 0),
        Ins::Xarg { .. } => (0, 0, 0),
        Ins::Xwho { .. } => (0, 0, 0),
    }
}
