ghost use Rattle.std.specs.Prelude.{◌≡◌, ◌≤◌, ◌<◌, IfOk, length, slice_index};
ghost use Rattle.mips_effect.specs.Effects.{AreCells, Ranged};
ghost use Rattle.mips_plain.specs.Instruction.{effect_at, instruction_in};
ghost use Rattle.mips_plain.specs.Inside.{IsLent};
ghost use Rattle.mips_plain.specs.Machine.{answer_to, plain, plain_cell_at, seen_of_cell as seen_at, signal_answered, start, step_done, with_lent, with_owned};
ghost use Rattle.mips_plain.specs.Memory.{private_size};

use crate::{
    Given, Memory, PlainCell, PlainStep, fetch, handler_after, kept_after, returned, signal_step,
    step_made, takes_signal, word_for,
};
use mips_effect::effects::Effect;
use mips_effect::{Mode, Seen, Wish, effect, sources};
use std::alloc::Global;
use std::marker::Model;
use xom_base::{NoMemory, OwnFault, PlainImage, Released, Step, StepEnd, Stored, Writes};

/// The plain machine over one image.
#[derive(Drop)]
pub struct Plain {
    cells: [PlainCell; 34],
    pc: u32,
    npc: u32,
    memory: Memory,
    handler: u32,
    kept: Option<(u32, u32)>,
    over: bool,
}

impl Model for Plain {
    ghost use Rattle.mips_plain.specs.Machine.{State};

    ghost Value = { State };

    ghost view = { λ p. record { cells = p.cells; pc = p.pc; npc = p.npc; bytes = p.memory; handler = p.handler; kept = p.kept; over = p.over } };
}

impl Plain {
    /// The image's program before its first step: no cell is owned, and the pair begins at the
    /// image's entry. Takes room for all of private memory, and touches of it what the image fills.
    #[tactic(auto, unfolding(crate::specs::Machine::start))]
    pub fn new(alloc: Global, image: &PlainImage) -> Result<Plain, NoMemory>
        ensures { IfOk result (λ p. p ≡ start image.now) }
    {
        let mut memory = Memory::new(alloc)?;
        memory.load(image);
        Ok(Plain {
            cells: [PlainCell::Lent; 34],
            pc: image.entry,
            npc: image.entry + 4,
            memory,
            handler: 0,
            kept: None,
            over: false,
        })
    }

    /// One step. Takes no memory, and costs the same however large memory is.
    #[tactic(auto, unfolding(crate::specs::Machine::plain))]
    pub fn step(&mut self, given: Given) -> PlainStep
        ensures answer { result ≡ (plain self.old given).0 }
        ensures state { self.new ≡ (plain self.old given).1 }
    {
        if self.over {
            return PlainStep::Over;
        }
        if let Given::Signal(signal) = given {
            return self.take_signal(signal);
        }
        match self.effect() {
            Err(fault) => PlainStep::Fault(fault),
            Ok(effect) => self.answer(given, &effect),
        }
    }

    /// The cell of a register, HI at 32 and LO at 33.
    pub fn cell(&self, reg: u8) -> PlainCell
        requires some { 1 ≤ reg }
        requires few { reg < 34 }
        ensures { result ≡ plain_cell_at self.now.cells reg }
    {
        cell_of(&self.cells, reg)
    }

    /// The byte at a private address.
    pub fn byte(&self, address: u32) -> u8
        requires { address < private_size }
        ensures { result ≡ slice_index self.now.bytes address }
    {
        self.memory.byte(address)
    }

    /// The addresses of the next instruction and of the one after it.
    pub fn pair(&self) -> (u32, u32)
        ensures { result ≡ (self.now.pc, self.now.npc) }
    {
        (self.pc, self.npc)
    }

    /// Whether the program has ended by `xexit`.
    pub fn is_over(&self) -> bool
        ensures { result ≡ self.now.over }
    {
        self.over
    }

    /// Goes on at the handler, where the signal can be delivered.
    fn take_signal(&mut self, signal: u32) -> PlainStep
        ensures answer { result ≡ (signal_answered self.old signal).0 }
        ensures state { self.new ≡ (signal_answered self.old signal).1 }
    {
        if !takes_signal(signal, self.handler, self.kept) {
            return PlainStep::Unfit;
        }
        let step = signal_step(self.pc, self.npc, signal);
        own(&mut self.cells, step.writes);
        self.kept = Some((self.pc, self.npc));
        self.pc = self.handler;
        self.npc = self.handler.wrapping_add(4);
        PlainStep::Did(step)
    }

    /// What the instruction at the pair comes to.
    fn effect(&self) -> Result<Effect, OwnFault>
        ensures value { result ≡ effect_at (seen_at self.now.cells) self.now.kept (instruction_in self.now.bytes self.now.pc) self.now.pc self.now.npc }
        ensures ranged { IfOk result Ranged }
    {
        let ins = fetch(&self.memory, self.pc)?;
        let (first, second, third) = sources(ins);
        let effect = effect(
            ins,
            Mode::Guest,
            seen(&self.cells, first),
            seen(&self.cells, second),
            seen(&self.cells, third),
            self.pc,
            self.npc,
        )?;
        returned(effect, self.kept)
    }

    /// Does an effect, where what is given fits it.
    fn answer(&mut self, given: Given, effect: &Effect) -> PlainStep
        requires { Ranged effect.now }
        ensures answer { result ≡ (answer_to self.old given (Ok effect.now)).0 }
        ensures state { self.new ≡ (answer_to self.old given (Ok effect.now)).1 }
    {
        let receives = matches!(effect.wish, Wish::Receive { .. } | Wish::NullLoad { .. });
        match given {
            Given::Nothing if !receives => self.perform(effect, 0),
            Given::Value(value) if receives => self.perform(effect, value),
            Given::Signal(signal) => self.take_signal(signal),
            Given::Nothing | Given::Value(_) => PlainStep::Unfit,
        }
    }

    /// Does the step of an effect, where a value was received.
    fn perform(&mut self, effect: &Effect, got: u32) -> PlainStep
        requires { Ranged effect.now }
        ensures answer { result ≡ (step_done self.old effect.now got).0 }
        ensures state { self.new ≡ (step_done self.old effect.now got).1 }
    {
        let word = word_for(&self.memory, effect);
        let step = step_made(self.pc, self.npc, effect, word, got);
        own(&mut self.cells, step.writes);
        lend(&mut self.cells, step.released);
        if let Stored::Bytes {
            address,
            count,
            value,
        } = step.stored
        {
            self.memory.store(address, count, value);
        }
        self.pc = effect.pc;
        self.npc = effect.npc;
        self.handler = handler_after(self.handler, effect.wish);
        self.kept = kept_after(self.kept, effect.wish);
        self.over = matches!(step.end, StepEnd::Exit);
        PlainStep::Did(step)
    }
}

/// The cell of a register.
fn cell_of(cells: &[PlainCell], reg: u8) -> PlainCell
    requires whole { length cells.now ≡ 34 }
    requires few { reg < 34 }
    ensures { result ≡ plain_cell_at cells.now reg }
{
    cells[usize::from(reg)]
}

/// What the program sees in a cell.
fn seen(cells: &[PlainCell], reg: u8) -> Seen
    requires whole { length cells.now ≡ 34 }
    requires few { reg < 34 }
    ensures { result ≡ seen_at cells.now reg }
{
    if reg == 0 {
        return Seen::Value(0);
    }
    match cell_of(cells, reg) {
        PlainCell::Own(value) => Seen::Value(value),
        PlainCell::Lent => Seen::Foreign,
    }
}

/// Makes the cells written the program's own.
fn own(cells: &mut [PlainCell], writes: Writes)
    requires whole { length cells.old ≡ 34 }
    requires few { AreCells writes }
    ensures { cells.new ≡ with_owned cells.old writes }
{
    match writes {
        Writes::Nothing => {}
        Writes::One { reg, value } => cells[usize::from(reg)] = PlainCell::Own(value),
        Writes::Pair { hi, lo } => {
            cells[32] = PlainCell::Own(hi);
            cells[33] = PlainCell::Own(lo);
        }
    }
}

/// Gives a released cell to the outside.
fn lend(cells: &mut [PlainCell], released: Released)
    requires whole { length cells.old ≡ 34 }
    requires few { IsLent released }
    ensures { cells.new ≡ with_lent cells.old released }
{
    if let Released::Cell { reg, value: _value } = released {
        cells[usize::from(reg)] = PlainCell::Lent;
    }
}
