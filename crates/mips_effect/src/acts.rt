ghost use Rattle.std.specs.Prelude.{◌≡◌, ◌≢◌, IfOk, Err};
ghost use Rattle.mips_instruction.specs.Words.{Fits};
ghost use Rattle.mips_effect.specs.Effects.{IsInOneWord, Opened, Ranged, act, effect_of, effect_or_fault, is_barred, is_foreign, is_guest_form, is_kernel_form, is_reserved, number_of_seen, seen_at};

use crate::accesses::{
    loads, low_bytes, null_loads, null_stores, stores, stores_left, stores_right,
};
use crate::cells::sources;
use crate::effects::Effect;
use crate::kinds::{
    asks, branches, branches_linked, does, jumps, set, sets, sets_or_overflows, wishes, writes_only,
};
use crate::products::{divided, divided_unsigned, halves, product, product_unsigned};
use crate::sums::{
    after, bit_if, difference, extended, is_less, jump_target, minus, plus_signed, shifted_signed,
    sum,
};
use crate::{Asked, LoadKind, Mode, Seen, Wish};
use mips_instruction::Ins;
use xom_base::{Op, OwnFault, Writes};

/// What an instruction does, given what its one sees of the cells that `sources` names, and the
/// pair: the addresses of the instruction and of the one after it. A place in which no cell is read
/// may be given anything, and nothing depends on `pc`: branches go by the next address. In mode
/// Null nothing is foreign, and a foreign cell counts as 0.
///
/// Faults are looked for in this order: Reserved, an instruction that the compartment doesn't have;
/// Foreign, a cell that isn't owned, and for `xmvfn` one that is; then Overflow, Address and Break.
#[tactic(auto, unfolding(crate::specs::Effects::effect_of))]
pub fn effect(
    ins: Ins,
    mode: Mode,
    first: Seen,
    second: Seen,
    third: Seen,
    pc: u32,
    npc: u32,
) -> Result<Effect, OwnFault>
    requires { Fits ins }
    ensures value { result ≡ effect_of ins mode first second third pc npc }
    ensures ranged { mode ≡ Mode.Guest → IfOk result Ranged }
    ensures opened { mode ≡ Mode.Null → IfOk result Opened }

    // A stored value has no more than its 1 to 4 bytes, which lie in one aligned word.
    ensures word { IfOk result (λ e. IsInOneWord e.wish) }
    ensures foreign { mode ≡ Mode.Null → result ≢ Err OwnFault.Foreign }
{
    let (a, b, c) = sources(ins);
    judged(
        ins,
        mode,
        seen_at(a, first),
        seen_at(b, second),
        seen_at(c, third),
        npc,
    )
}

/// Cell 0 is zero, whatever is told of it.
fn seen_at(cell: u8, seen: Seen) -> Seen
    ensures { result ≡ seen_at cell seen }
{
    if cell == 0 { Seen::Value(0) } else { seen }
}

/// The faults that come before the instruction's own, then the instruction.
fn judged(
    ins: Ins,
    mode: Mode,
    first: Seen,
    second: Seen,
    third: Seen,
    following: u32,
) -> Result<Effect, OwnFault>
    requires { Fits ins }
    ensures value { result ≡ effect_or_fault ins mode first second third following }
    ensures word { IfOk result (λ e. IsInOneWord e.wish) }
{
    if is_reserved(mode, ins) {
        return Err(OwnFault::Reserved);
    }
    if is_barred(mode, ins, first, second, third) {
        return Err(OwnFault::Foreign);
    }
    act(
        ins,
        mode,
        number_of(first),
        number_of(second),
        number_of(third),
        following,
    )
}

/// Whether the compartment doesn't have the instruction.
fn is_reserved(mode: Mode, ins: Ins) -> bool
    ensures { result ≡ is_reserved mode ins }
{
    match mode {
        Mode::Guest => is_kernel_form(ins),
        Mode::Null => is_guest_form(ins),
    }
}

/// The forms of a guest.
fn is_guest_form(ins: Ins) -> bool
    ensures { result ≡ is_guest_form ins }
{
    matches!(
        ins,
        Ins::Xlwn { .. }
            | Ins::Xswn { .. }
            | Ins::Xmvtn { .. }
            | Ins::Xmvfn { .. }
            | Ins::Xexit
            | Ins::Xhand { .. }
            | Ins::Xsigret
    )
}

/// The forms of null code.
fn is_kernel_form(ins: Ins) -> bool
    ensures { result ≡ is_kernel_form ins }
{
    matches!(
        ins,
        Ins::Xinstall { .. }
            | Ins::Xenter { .. }
            | Ins::Xresume { .. }
            | Ins::Xsave { .. }
            | Ins::Xrestore { .. }
            | Ins::Xmap { .. }
            | Ins::Xunmap { .. }
            | Ins::Xkill { .. }
            | Ins::Xout { .. }
            | Ins::Xhalt
            | Ins::Xstat { .. }
            | Ins::Xcause { .. }
            | Ins::Xarg { .. }
            | Ins::Xwho { .. }
    )
}

/// Whether a guest may not read these cells by this instruction.
fn is_barred(mode: Mode, ins: Ins, first: Seen, second: Seen, third: Seen) -> bool
    ensures { result ≡ is_barred mode ins first second third }
{
    match (mode, ins) {
        (Mode::Null, _) => false,
        (Mode::Guest, Ins::Xmvfn { .. }) => !is_foreign(first),
        (Mode::Guest, _) => is_foreign(first) || is_foreign(second) || is_foreign(third),
    }
}

fn is_foreign(seen: Seen) -> bool
    ensures { result ≡ is_foreign seen }
{
    matches!(seen, Seen::Foreign)
}

/// What is computed with.
fn number_of(seen: Seen) -> u32
    ensures { result ≡ number_of_seen seen }
{
    match seen {
        Seen::Value(value) => value,
        Seen::Foreign => 0,
    }
}

/// What the instruction does by its own rules, of the values of `rs`, `rt` and `rd`.
#[tactic(auto, unfolding(crate::specs::Effects::act))]
fn act(ins: Ins, mode: Mode, s: u32, t: u32, d: u32, following: u32) -> Result<Effect, OwnFault>
    requires { Fits ins }
    ensures { result ≡ act ins mode s t d following }
{
    match ins {
        Ins::Sll { rd, sa, .. } => sets(rd, t << sa, following),
        Ins::Srl { rd, sa, .. } => sets(rd, t >> sa, following),
        Ins::Sra { rd, sa, .. } => sets(rd, shifted_signed(t, sa), following),
        Ins::Sllv { rd, .. } => sets(rd, t << (s % 32), following),
        Ins::Srlv { rd, .. } => sets(rd, t >> (s % 32), following),
        Ins::Srav { rd, .. } => sets(rd, shifted_signed(t, (s % 32) as u8), following),
        Ins::Jr { .. } => jumps(Writes::Nothing, s, following),
        Ins::Jalr { rd, .. } => jumps(set(rd, after(following)), s, following),
        Ins::Syscall { code } => wishes(Wish::Call(code), following),
        Ins::Break { .. } => Err(OwnFault::Break),
        Ins::Mfhi { rd } => sets(rd, s, following),
        Ins::Mthi { .. } => writes_only(Writes::One { reg: 32, value: s }, following),
        Ins::Mflo { rd } => sets(rd, s, following),
        Ins::Mtlo { .. } => writes_only(Writes::One { reg: 33, value: s }, following),
        Ins::Mult { .. } => writes_only(halves(product(s, t)), following),
        Ins::Multu { .. } => writes_only(halves(product_unsigned(s, t)), following),
        Ins::Div { .. } => writes_only(divided(s, t), following),
        Ins::Divu { .. } => writes_only(divided_unsigned(s, t), following),
        Ins::Add { rd, .. } => sets_or_overflows(rd, sum(s, t), following),
        Ins::Addu { rd, .. } => sets(rd, s.wrapping_add(t), following),
        Ins::Sub { rd, .. } => sets_or_overflows(rd, difference(s, t), following),
        Ins::Subu { rd, .. } => sets(rd, minus(s, t), following),
        Ins::And { rd, .. } => sets(rd, s & t, following),
        Ins::Or { rd, .. } => sets(rd, s | t, following),
        Ins::Xor { rd, .. } => sets(rd, s ^ t, following),
        Ins::Nor { rd, .. } => sets(rd, !(s | t), following),
        Ins::Slt { rd, .. } => sets(rd, bit_if(is_less(s, t)), following),
        Ins::Sltu { rd, .. } => sets(rd, bit_if(s < t), following),
        Ins::Bltz { imm, .. } => branches(is_less(s, 0), imm, following),
        Ins::Bgez { imm, .. } => branches(!is_less(s, 0), imm, following),
        Ins::Bltzal { imm, .. } => branches_linked(is_less(s, 0), imm, following),
        Ins::Bgezal { imm, .. } => branches_linked(!is_less(s, 0), imm, following),
        Ins::J { index } => jumps(Writes::Nothing, jump_target(following, index), following),
        Ins::Jal { index } => jumps(
            set(31, after(following)),
            jump_target(following, index),
            following,
        ),
        Ins::Beq { imm, .. } => branches(s == t, imm, following),
        Ins::Bne { imm, .. } => branches(s != t, imm, following),
        Ins::Blez { imm, .. } => branches(!is_less(0, s), imm, following),
        Ins::Bgtz { imm, .. } => branches(is_less(0, s), imm, following),
        Ins::Addi { rt, imm, .. } => sets_or_overflows(rt, sum(s, extended(imm)), following),
        Ins::Addiu { rt, imm, .. } => sets(rt, plus_signed(s, imm), following),
        Ins::Slti { rt, imm, .. } => sets(rt, bit_if(is_less(s, extended(imm))), following),
        Ins::Sltiu { rt, imm, .. } => sets(rt, bit_if(s < extended(imm)), following),
        Ins::Andi { rt, imm, .. } => sets(rt, s & u32::from(imm), following),
        Ins::Ori { rt, imm, .. } => sets(rt, s | u32::from(imm), following),
        Ins::Xori { rt, imm, .. } => sets(rt, s ^ u32::from(imm), following),
        Ins::Lui { rt, imm } => sets(rt, u32::from(imm) << 16, following),
        Ins::Lb { rt, imm, .. } => loads(
            mode,
            LoadKind::Byte,
            rt,
            plus_signed(s, imm),
            t,
            following,
        ),
        Ins::Lh { rt, imm, .. } => loads(
            mode,
            LoadKind::Half,
            rt,
            plus_signed(s, imm),
            t,
            following,
        ),
        Ins::Lwl { rt, imm, .. } => loads(
            mode,
            LoadKind::Left,
            rt,
            plus_signed(s, imm),
            t,
            following,
        ),
        Ins::Lw { rt, imm, .. } => loads(
            mode,
            LoadKind::Word,
            rt,
            plus_signed(s, imm),
            t,
            following,
        ),
        Ins::Lbu { rt, imm, .. } => loads(
            mode,
            LoadKind::ByteU,
            rt,
            plus_signed(s, imm),
            t,
            following,
        ),
        Ins::Lhu { rt, imm, .. } => loads(
            mode,
            LoadKind::HalfU,
            rt,
            plus_signed(s, imm),
            t,
            following,
        ),
        Ins::Lwr { rt, imm, .. } => loads(
            mode,
            LoadKind::Right,
            rt,
            plus_signed(s, imm),
            t,
            following,
        ),
        Ins::Sb { imm, .. } => stores(mode, 1, plus_signed(s, imm), low_bytes(1, t), following),
        Ins::Sh { imm, .. } => stores(mode, 2, plus_signed(s, imm), low_bytes(2, t), following),
        Ins::Swl { imm, .. } => stores_left(mode, plus_signed(s, imm), t, following),
        Ins::Sw { imm, .. } => stores(mode, 4, plus_signed(s, imm), t, following),
        Ins::Swr { imm, .. } => stores_right(mode, plus_signed(s, imm), t, following),
        Ins::Xlwn { rt, imm, .. } => null_loads(rt, plus_signed(s, imm), following),
        Ins::Xswn { imm, .. } => null_stores(plus_signed(s, imm), t, following),
        Ins::Xhand { .. } => wishes(Wish::Hand(s), following),
        Ins::Xsigret => wishes(Wish::SigRet, following),
        Ins::Xmvtn { rs } => wishes(Wish::Release { reg: rs, value: s }, following),
        Ins::Xmvfn { rd, rs } => wishes(Wish::Receive { reg: rd, from: rs }, following),
        Ins::Xexit => wishes(Wish::Exit, following),
        Ins::Xinstall { .. } => does(
            Op::Install {
                slot: s,
                envelope: t,
                area: d,
            },
            following,
        ),
        Ins::Xenter { .. } => does(Op::Enter { slot: s }, following),
        Ins::Xresume { .. } => does(Op::Resume { slot: s, signal: t }, following),
        Ins::Xsave { .. } => does(
            Op::Save {
                slot: s,
                reg: t,
                address: d,
            },
            following,
        ),
        Ins::Xrestore { .. } => does(
            Op::Restore {
                slot: s,
                reg: t,
                address: d,
            },
            following,
        ),
        Ins::Xmap { .. } => does(
            Op::Map {
                slot: s,
                page: t,
                frame: d,
            },
            following,
        ),
        Ins::Xunmap { .. } => does(Op::Unmap { slot: s, page: t }, following),
        Ins::Xkill { .. } => does(Op::Kill { slot: s }, following),
        Ins::Xout { .. } => does(
            Op::Out {
                byte: (s & 0xff) as u8,
            },
            following,
        ),
        Ins::Xhalt => does(Op::Halt, following),
        Ins::Xstat { rd } => asks(rd, Asked::Status, following),
        Ins::Xcause { rd } => asks(rd, Asked::Cause, following),
        Ins::Xarg { rd } => asks(rd, Asked::Arg, following),
        Ins::Xwho { rd } => asks(rd, Asked::Who, following),
    }
}
