ghost use Rattle.std.specs.Prelude.{◌≡◌, length, IfOk, OnErr};
ghost use Rattle.mips_effect.specs.Effects.{Opened};
ghost use Rattle.xom_model.specs.Null.{fetched_open, null_fault as null_fault_of, null_step, seen_open, tried_open, wish_answer};
ghost use Rattle.xom_null.specs.Parts.{null_told, open_of};

use crate::answers::answer;
use crate::cells::{seen, write, write_one};
use crate::memory::{fetch, load, store};
use line_ram::LineRam;
use mips_effect::effects::Effect;
use mips_effect::{Mode, Wish, effect, sources};
use tag_regs::Cells;
use xom_base::{Cause, Op, OwnFault};
use xom_model::outcome::NullFault;

/// Makes the instruction of null code at a pair. It may be told the status of the last operation,
/// and why and from which slot a guest left last. Answers the operation that it asks for, if any:
/// its own pair has gone on by then. Takes no memory, and costs the same however much RAM there is.
#[tactic(auto, unfolding(xom_model::specs::Null::null_step))]
pub fn null_event(
    cells: &mut Cells,
    ram: &mut LineRam,
    pair: &mut (u32, u32),
    status: u32,
    cause: Cause,
    who: u8,
) -> Result<Option<Op>, NullFault>
    ensures state { open_of cells.new ram.new pair.new ≡ (null_step (null_told status cause who) (open_of cells.old ram.old pair.old)).0 }
    ensures answer { result ≡ (null_step (null_told status cause who) (open_of cells.old ram.old pair.old)).1 }

    // A fault changes nothing.
    ensures fault { OnErr result ((cells.new ≡ cells.old) × (ram.new ≡ ram.old) × (pair.new ≡ pair.old)) }
    ensures size { length ram.new ≡ length ram.old }
{
    match attempt(cells, ram, *pair) {
        Err(fault) => Err(null_fault(fault)),
        Ok(effect) => grant(cells, ram, pair, status, cause, who, &effect),
    }
}

/// What the instruction at a pair comes to.
fn attempt(cells: &Cells, ram: &LineRam, pair: (u32, u32)) -> Result<Effect, OwnFault>
    ensures value { result ≡ tried_open (seen_open cells.now) (fetched_open ram.now pair.0) pair.0 pair.1 }
    ensures opened { IfOk result Opened }
{
    let ins = fetch(ram, pair.0)?;
    let (first, second, third) = sources(ins);
    effect(
        ins,
        Mode::Null,
        seen(cells, first),
        seen(cells, second),
        seen(cells, third),
        pair.0,
        pair.1,
    )
}

/// An instruction's own fault, as one of null code, to which nothing is foreign.
fn null_fault(fault: OwnFault) -> NullFault
    ensures { result ≡ null_fault_of fault }
{
    match fault {
        OwnFault::Reserved | OwnFault::Foreign => NullFault::Reserved,
        OwnFault::Overflow => NullFault::Overflow,
        OwnFault::Address => NullFault::Address,
        OwnFault::Break => NullFault::Break,
    }
}

/// Carries an effect out, or answers a fault and changes nothing.
fn grant(
    cells: &mut Cells,
    ram: &mut LineRam,
    pair: &mut (u32, u32),
    status: u32,
    cause: Cause,
    who: u8,
    effect: &Effect,
) -> Result<Option<Op>, NullFault>
    requires { Opened effect.now }
    ensures state { open_of cells.new ram.new pair.new ≡ (wish_answer (null_told status cause who) (open_of cells.old ram.old pair.old) effect.now effect.now.wish).0 }
    ensures answer { result ≡ (wish_answer (null_told status cause who) (open_of cells.old ram.old pair.old) effect.now effect.now.wish).1 }
    ensures fault { OnErr result ((cells.new ≡ cells.old) × (ram.new ≡ ram.old) × (pair.new ≡ pair.old)) }
    ensures size { length ram.new ≡ length ram.old }
{
    let mut asked = None;
    match effect.wish {
        Wish::Nothing => write(cells, effect.writes),
        Wish::Load {
            reg,
            address,
            kind,
            old,
        } => match load(ram, address, kind, old) {
            Some(value) => write_one(cells, reg, value),
            None => return Err(NullFault::Address),
        },
        Wish::Store {
            address,
            count,
            value,
        } => {
            if !store(ram, address, count, value) {
                return Err(NullFault::Address);
            }
            write(cells, effect.writes);
        }
        Wish::Ask { reg, what } => write_one(cells, reg, answer(status, cause, who, what)),
        Wish::Do(op) => {
            write(cells, effect.writes);
            asked = Some(op);
        }
        Wish::Call(_) => return Err(NullFault::Call),
        // Null code has none of these forms.
        Wish::NullLoad { .. }
        | Wish::NullStore { .. }
        | Wish::Hand(_)
        | Wish::SigRet
        | Wish::Release { .. }
        | Wish::Receive { .. }
        | Wish::Exit => return Err(NullFault::Reserved),
    }
    *pair = (effect.pc, effect.npc);
    Ok(asked)
}
