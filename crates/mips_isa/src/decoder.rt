ghost use Rattle.std.specs.Prelude.{◌≡◌, ◌↔◌, IsNone};
ghost use Rattle.mips_instruction.specs.Words.{IsReserved, Word, branch_of, code_field, compartment_of, function_of, imm_of, immediate_of, instruction_of_word, op_of, rd_of, rs_of, rt_of, sa_of, special_of};

use crate::fields::{code, function, imm, index, op, rd, rs, rt, sa};
use mips_instruction::Ins;

/// The instruction of a word, and None where the word is reserved: where it is in no row of the
/// table, or a field that its row doesn't name isn't zero.
pub fn decode(word: u32) -> Option<Ins>
    ensures exact { (i : Ins) → (result ≡ Some i) ↔ Word i word }
    ensures reserved { IsNone result ↔ IsReserved word }
    ensures value { result ≡ instruction_of_word word }
{
    read_word(word)
}

#[tactic(auto, unfolding(mips_instruction::specs::Words::instruction_of_word))]
fn read_word(word: u32) -> Option<Ins>
    ensures { result ≡ instruction_of_word word }
{
    match op(word) {
        0 => special(word),
        1 => branch(word),
        2 => Some(Ins::J { index: index(word) }),
        3 => Some(Ins::Jal { index: index(word) }),
        18 => compartment(word),
        _ => immediate(word),
    }
}

#[tactic(auto, unfolding(mips_instruction::specs::Words::special_of))]
fn special(word: u32) -> Option<Ins>
    ensures { result ≡ special_of (rs_of word) (rt_of word) (rd_of word) (sa_of word) (function_of word) (code_field word) }
{
    match (function(word), rs(word), rt(word), rd(word), sa(word)) {
        (0, 0, rt, rd, sa) => Some(Ins::Sll { rd, rt, sa }),
        (2, 0, rt, rd, sa) => Some(Ins::Srl { rd, rt, sa }),
        (3, 0, rt, rd, sa) => Some(Ins::Sra { rd, rt, sa }),
        (4, rs, rt, rd, 0) => Some(Ins::Sllv { rd, rt, rs }),
        (6, rs, rt, rd, 0) => Some(Ins::Srlv { rd, rt, rs }),
        (7, rs, rt, rd, 0) => Some(Ins::Srav { rd, rt, rs }),
        (8, rs, 0, 0, 0) => Some(Ins::Jr { rs }),
        (9, rs, 0, rd, 0) => Some(Ins::Jalr { rd, rs }),
        (12, _, _, _, _) => Some(Ins::Syscall { code: code(word) }),
        (13, _, _, _, _) => Some(Ins::Break { code: code(word) }),
        (16, 0, 0, rd, 0) => Some(Ins::Mfhi { rd }),
        (17, rs, 0, 0, 0) => Some(Ins::Mthi { rs }),
        (18, 0, 0, rd, 0) => Some(Ins::Mflo { rd }),
        (19, rs, 0, 0, 0) => Some(Ins::Mtlo { rs }),
        (24, rs, rt, 0, 0) => Some(Ins::Mult { rs, rt }),
        (25, rs, rt, 0, 0) => Some(Ins::Multu { rs, rt }),
        (26, rs, rt, 0, 0) => Some(Ins::Div { rs, rt }),
        (27, rs, rt, 0, 0) => Some(Ins::Divu { rs, rt }),
        (32, rs, rt, rd, 0) => Some(Ins::Add { rd, rs, rt }),
        (33, rs, rt, rd, 0) => Some(Ins::Addu { rd, rs, rt }),
        (34, rs, rt, rd, 0) => Some(Ins::Sub { rd, rs, rt }),
        (35, rs, rt, rd, 0) => Some(Ins::Subu { rd, rs, rt }),
        (36, rs, rt, rd, 0) => Some(Ins::And { rd, rs, rt }),
        (37, rs, rt, rd, 0) => Some(Ins::Or { rd, rs, rt }),
        (38, rs, rt, rd, 0) => Some(Ins::Xor { rd, rs, rt }),
        (39, rs, rt, rd, 0) => Some(Ins::Nor { rd, rs, rt }),
        (42, rs, rt, rd, 0) => Some(Ins::Slt { rd, rs, rt }),
        (43, rs, rt, rd, 0) => Some(Ins::Sltu { rd, rs, rt }),
        _ => None,
    }
}

#[tactic(auto, unfolding(mips_instruction::specs::Words::branch_of))]
fn branch(word: u32) -> Option<Ins>
    ensures { result ≡ branch_of (rs_of word) (rt_of word) (imm_of word) }
{
    let (rs, imm) = (rs(word), imm(word));
    match rt(word) {
        0 => Some(Ins::Bltz { rs, imm }),
        1 => Some(Ins::Bgez { rs, imm }),
        16 => Some(Ins::Bltzal { rs, imm }),
        17 => Some(Ins::Bgezal { rs, imm }),
        _ => None,
    }
}

#[tactic(auto, unfolding(mips_instruction::specs::Words::compartment_of))]
fn compartment(word: u32) -> Option<Ins>
    ensures { result ≡ compartment_of (rs_of word) (rt_of word) (rd_of word) (sa_of word) (function_of word) }
{
    match (function(word), rs(word), rt(word), rd(word), sa(word)) {
        (1, rs @ 1.., 0, 0, 0) => Some(Ins::Xmvtn { rs }),
        (2, rs @ 1.., 0, rd @ 1.., 0) => Some(Ins::Xmvfn { rd, rs }),
        (3, 0, 0, 0, 0) => Some(Ins::Xexit),
        (4, rs, 0, 0, 0) => Some(Ins::Xhand { rs }),
        (5, 0, 0, 0, 0) => Some(Ins::Xsigret),
        (16, rs, rt, rd, 0) => Some(Ins::Xinstall { rs, rt, rd }),
        (17, rs, 0, 0, 0) => Some(Ins::Xenter { rs }),
        (18, rs, rt, 0, 0) => Some(Ins::Xresume { rs, rt }),
        (19, rs, rt, rd, 0) => Some(Ins::Xsave { rs, rt, rd }),
        (20, rs, rt, rd, 0) => Some(Ins::Xrestore { rs, rt, rd }),
        (21, rs, rt, rd, 0) => Some(Ins::Xmap { rs, rt, rd }),
        (22, rs, rt, 0, 0) => Some(Ins::Xunmap { rs, rt }),
        (24, rs, 0, 0, 0) => Some(Ins::Xkill { rs }),
        (25, rs, 0, 0, 0) => Some(Ins::Xout { rs }),
        (26, 0, 0, 0, 0) => Some(Ins::Xhalt),
        (27, 0, 0, rd, 0) => Some(Ins::Xstat { rd }),
        (28, 0, 0, rd, 0) => Some(Ins::Xcause { rd }),
        (29, 0, 0, rd, 0) => Some(Ins::Xarg { rd }),
        (30, 0, 0, rd, 0) => Some(Ins::Xwho { rd }),
        _ => None,
    }
}

#[tactic(auto, unfolding(mips_instruction::specs::Words::immediate_of))]
fn immediate(word: u32) -> Option<Ins>
    ensures { result ≡ immediate_of (op_of word) (rs_of word) (rt_of word) (imm_of word) }
{
    let imm = imm(word);
    match (op(word), rs(word), rt(word)) {
        (4, rs, rt) => Some(Ins::Beq { rs, rt, imm }),
        (5, rs, rt) => Some(Ins::Bne { rs, rt, imm }),
        (6, rs, 0) => Some(Ins::Blez { rs, imm }),
        (7, rs, 0) => Some(Ins::Bgtz { rs, imm }),
        (8, rs, rt) => Some(Ins::Addi { rt, rs, imm }),
        (9, rs, rt) => Some(Ins::Addiu { rt, rs, imm }),
        (10, rs, rt) => Some(Ins::Slti { rt, rs, imm }),
        (11, rs, rt) => Some(Ins::Sltiu { rt, rs, imm }),
        (12, rs, rt) => Some(Ins::Andi { rt, rs, imm }),
        (13, rs, rt) => Some(Ins::Ori { rt, rs, imm }),
        (14, rs, rt) => Some(Ins::Xori { rt, rs, imm }),
        (15, 0, rt) => Some(Ins::Lui { rt, imm }),
        (32, rs, rt) => Some(Ins::Lb { rt, imm, rs }),
        (33, rs, rt) => Some(Ins::Lh { rt, imm, rs }),
        (34, rs, rt) => Some(Ins::Lwl { rt, imm, rs }),
        (35, rs, rt) => Some(Ins::Lw { rt, imm, rs }),
        (36, rs, rt) => Some(Ins::Lbu { rt, imm, rs }),
        (37, rs, rt) => Some(Ins::Lhu { rt, imm, rs }),
        (38, rs, rt) => Some(Ins::Lwr { rt, imm, rs }),
        (40, rs, rt) => Some(Ins::Sb { rt, imm, rs }),
        (41, rs, rt) => Some(Ins::Sh { rt, imm, rs }),
        (42, rs, rt) => Some(Ins::Swl { rt, imm, rs }),
        (43, rs, rt) => Some(Ins::Sw { rt, imm, rs }),
        (46, rs, rt) => Some(Ins::Swr { rt, imm, rs }),
        (50, rs, rt) => Some(Ins::Xlwn { rt, imm, rs }),
        (58, rs, rt) => Some(Ins::Xswn { rt, imm, rs }),
        _ => None,
    }
}
