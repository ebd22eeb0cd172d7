ghost use Rattle.std.specs.Prelude.{◌≡◌, ◌&&◌, IfOk};
ghost use Rattle.mips_instruction.specs.Words.{Fits};
ghost use Rattle.mips_effect.specs.Effects.{Ranged, write_of_register as set_of};
ghost use Rattle.mips_plain.specs.Instruction.{handler_after as handler_of, instruction_in, is_signal, is_signal_ready, kept_after as kept_of, signal_step as signal_step_of, step_made as made_of, with_return, word_for as word_of};
ghost use Rattle.mips_plain.specs.Inside.{IsInside};

use crate::Memory;
use mips_effect::effects::Effect;
use mips_effect::{Wish, merge};
use mips_instruction::Ins;
use mips_isa::decode;
use xom_base::{OwnFault, Received, Released, Step, StepEnd, Stored, Writes};

/// The instruction at an address of private memory. Faults are Address off a multiple of 4 or
/// outside, and Reserved for a word that is no instruction.
#[tactic(auto, using(crate::proofs::Sizes::private_size_is), unfolding(crate::specs::Instruction::instruction_in))]
pub fn fetch(memory: &Memory, pc: u32) -> Result<Ins, OwnFault>
    ensures value { result ≡ instruction_in memory.now pc }
    ensures fits { IfOk result Fits }
{
    if pc % 4 != 0 || pc >= Memory::SIZE {
        return Err(OwnFault::Address);
    }
    match decode(memory.word(pc)) {
        Some(ins) => Ok(ins),
        None => Err(OwnFault::Reserved),
    }
}

/// The word that a load is made of, the one that holds its address; 0 where nothing is loaded.
#[tactic(auto, using(crate::proofs::Sizes::private_size_is))]
pub fn word_for(memory: &Memory, effect: &Effect) -> u32
    requires { Ranged effect.now }
    ensures { result ≡ word_of memory.now effect.now.wish }
{
    match effect.wish {
        Wish::Load { address, .. } => memory.word(address - address % 4),
        _ => 0,
    }
}

/// The step that an effect makes at a pair, where `word` is what it loads from and `got` is what
/// an instruction receives that receives.
#[tactic(auto, using(crate::proofs::Sizes::private_size_is), unfolding(crate::specs::Instruction::step_made))]
pub fn step_made(pc: u32, npc: u32, effect: &Effect, word: u32, got: u32) -> Step
    requires { Ranged effect.now }
    ensures value { result ≡ made_of pc npc effect.now word got }
    ensures inside { IsInside result }
{
    let plain = step(pc, npc, effect.writes);
    match effect.wish {
        Wish::Nothing => plain,
        Wish::Load {
            reg,
            address,
            kind,
            old,
        } => { step(pc, npc, set(reg, merge(kind, old, address, word))) }
        Wish::Store {
            address,
            count,
            value,
        } => Step {
            stored: Stored::Bytes {
                address,
                count,
                value,
            },
            ..plain
        },
        Wish::Release { reg, value } => Step {
            released: Released::Cell { reg, value },
            ..plain
        },
        Wish::Receive { reg, from: _from } => Step {
            received: Received::Cell(got),
            ..step(pc, npc, set(reg, got))
        },
        Wish::NullLoad { reg, address } => Step {
            received: Received::Null {
                address,
                value: got,
            },
            ..step(pc, npc, set(reg, got))
        },
        Wish::NullStore { address, value } => Step {
            released: Released::Null { address, value },
            ..plain
        },
        Wish::Hand(_) | Wish::SigRet => plain,
        Wish::Exit => Step {
            end: StepEnd::Exit,
            ..plain
        },
        Wish::Call(code) => Step {
            end: StepEnd::Call(code),
            ..plain
        },
        // These never come to a guest.
        Wish::Do(_) | Wish::Ask { .. } => plain,
    }
}

/// A step that only writes cells.
fn step(pc: u32, npc: u32, writes: Writes) -> Step
    ensures { result ≡ record { pc = pc; npc = npc; writes = writes; stored = Stored.Nothing; received = Received.Nothing; released = Released.Nothing; end = StepEnd.Goes } }
{
    Step {
        pc,
        npc,
        writes,
        stored: Stored::Nothing,
        received: Received::Nothing,
        released: Released::Nothing,
        end: StepEnd::Goes,
    }
}

/// The write of a register, where one to $0 is dropped.
fn set(reg: u8, value: u32) -> Writes
    ensures { result ≡ set_of reg value }
{
    if reg == 0 {
        Writes::Nothing
    } else {
        Writes::One { reg, value }
    }
}

/// The effect where a signal kept a pair, or none: the return from it goes there, and is Reserved
/// where none was kept.
pub fn returned(effect: Effect, kept: Option<(u32, u32)>) -> Result<Effect, OwnFault>
    requires { Ranged effect }
    ensures value { result ≡ with_return kept effect effect.wish }
    ensures ranged { IfOk result Ranged }
{
    if let Wish::SigRet = effect.wish {
        return match kept {
            None => Err(OwnFault::Reserved),
            Some((pc, npc)) => Ok(Effect { pc, npc, ..effect }),
        };
    }
    Ok(effect)
}

/// The handler after a wish.
pub fn handler_after(handler: u32, wish: Wish) -> u32
    ensures { result ≡ handler_of handler wish }
{
    match wish {
        Wish::Hand(address) => address,
        _ => handler,
    }
}

/// The kept pair after a wish.
pub fn kept_after(kept: Option<(u32, u32)>, wish: Wish) -> Option<(u32, u32)>
    ensures { result ≡ kept_of kept wish }
{
    match wish {
        Wish::SigRet => None,
        _ => kept,
    }
}

/// The step of a signal that is delivered at a pair.
pub fn signal_step(pc: u32, npc: u32, signal: u32) -> Step
    ensures { result ≡ signal_step_of pc npc signal }
{
    Step {
        received: Received::Signal(signal),
        ..step(
            pc,
            npc,
            Writes::One {
                reg: 26,
                value: signal,
            },
        )
    }
}

/// Whether a signal, 1 to 63, can be delivered: there is a handler, and no pair is kept.
pub fn takes_signal(signal: u32, handler: u32, kept: Option<(u32, u32)>) -> bool
    ensures { result ≡ is_signal signal && is_signal_ready handler kept }
{
    1 <= signal && signal <= 63 && handler != 0 && kept.is_none()
}
