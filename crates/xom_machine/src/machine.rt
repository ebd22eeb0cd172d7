ghost use Rattle.std.specs.Prelude.{◌≡◌, ◌≤◌, ◌<◌, ◌+◌, ◌*◌, ◌^◌, ℕ, List, Some, true, false, replicate, length, take, IfOk, IsOk, OnOk, OnErr, is_some};
ghost use Rattle.xom_base.specs.declared.key.Key256.{Key256 as AnyKey};
ghost use Rattle.xom_base.specs.Frames.{frame_size};
ghost use Rattle.xom_owners.specs.declared.owner.Owner.{Owner};
ghost use Rattle.xom_model.specs.Counts.{AreCounted};
ghost use Rattle.xom_model.specs.Event.{after_kernel_write, after_operation, chunk_size, fits as fits_of, guest_turn, is_halt as is_halt_of, null_asked, null_turn, on, open_in, outcome_of, running_slot as running_of, told_in, with_open, with_ram};
ghost use Rattle.xom_model.specs.Holds.{Holds};
ghost use Rattle.xom_model.specs.Null.{null_step, ram_after_write};
ghost use Rattle.xom_model.specs.Operation.{operation};
ghost use Rattle.xom_model.specs.Seen.{view_of};
ghost use Rattle.xom_model.specs.State.{power_on, ram_holds_range as holds_in};
ghost use Rattle.xom_model.specs.Stops.{StopsAreLast, StopsHold};
ghost use Rattle.xom_seen.specs.NoWayOut.{GivesNoMoreAway, IsSettled};
ghost use Rattle.xom_machine.specs.Kept.{AddsNoPadTwice, FaultsAreAlone, KeepsHolding, LeavesOthers, LeavesRefused, TrapsAreQuiet};
ghost use Rattle.xom_machine.specs.Whole.{with_loaded};

pub mod view;

use crate::Chunk;
use crate::machine::view::View;
use line_ram::LineRam;
use std::alloc::Global;
use std::marker::Model;
use xom_base::{Cause, Event, Key256, NoMemory, Op};
use xom_guest::guest_event;
use xom_journal::Journal;
use xom_model::outcome::{NullFault, Outcome};
use xom_null::null_event;
use xom_ops::operate;
use xom_private::{Core, EVENT_ROOM};
use xom_versions::VersionStore;

/// The processor with all that it keeps, the RAM that it works on, and the count of its events.
#[derive(Drop)]
pub struct Machine<V: VersionStore> {
    core: Core<V>,
    pair: (u32, u32),
    status: u32,
    cause: Cause,
    who: u8,
    events: u64,
    halted: bool,
    fault: Option<(u32, NullFault)>,
}

impl<V: VersionStore> Model for Machine<V> {
    ghost use Rattle.xom_machine.specs.Whole.{InTime, WholeMachine};

    ghost Value = { WholeMachine };

    ghost view = { λ m. record { state = record { core = m.core.core; pc = m.pair.0; npc = m.pair.1; status = m.status; cause = m.cause; who = m.who; events = m.events; halted = m.halted; fault = m.fault }; spare = m.core.spare } };

    ghost invariant = { λ m. InTime (record { core = m.core.core; pc = m.pair.0; npc = m.pair.1; status = m.status; cause = m.cause; who = m.who; events = m.events; halted = m.halted; fault = m.fault }) };
}

impl<V: VersionStore> Machine<V> {
    /// Power-on: so many frames of RAM, 4 to 8,192, of zeros; all cells zero, all slots free,
    /// nothing mapped or cached, each version store blank, the null pair at the null entry, an
    /// empty journal with nothing spare, and no event.
    pub fn new(
        alloc: Global,
        frames: u32,
        machine: &Key256,
        boot: u64,
        null_entry: u32,
    ) -> Result<Machine<V>, NoMemory>
        requires few { 4 ≤ frames }
        requires many { frames ≤ 8192 }
        ensures start { IfOk result (λ m. m ≡ record { state = power_on V.versions machine.now boot (replicate (frames * frame_size) 0) null_entry; spare = 0 }) }

        // What the machine keeps of each guest holds then, whoever the owners are.
        ensures holds { IfOk result (λ m. (owners : List Owner) → Holds V.Stands owners m.state.core) }
    {
        Ok(Machine {
            core: Core::new(alloc, frames, machine, boot)?,
            pair: (null_entry, null_entry.wrapping_add(4)),
            status: 0,
            cause: Cause::Nothing,
            who: 0,
            events: 0,
            halted: false,
            fault: None,
        })
    }

    /// Puts bytes into RAM before the first event. False exactly where RAM doesn't hold the range:
    /// then nothing changes.
    pub fn load(&mut self, address: u32, bytes: &[u8]) -> bool
        requires first { self.old.state.events ≡ 0 }
        ensures answer { result ≡ holds_in self.old.state.core.ram address (length bytes.now) }
        ensures refused { result ≡ false → self.new ≡ self.old }
        ensures state { self.new ≡ with_loaded self.old address bytes.now }

        // A machine at power-on is at power-on, with these bytes in RAM.
        ensures start { (key : AnyKey) (boot : ℕ) (ram : List ℕ) (pc : ℕ) → self.old.state ≡ power_on V.versions key boot ram pc → self.new.state ≡ power_on V.versions key boot (ram_after_write ram address bytes.now) pc }
        ensures holds { (owners : List Owner) → Holds V.Stands owners self.old.state.core → Holds V.Stands owners self.new.state.core }
    {
        self.put(address, bytes)
    }

    /// Whether an event may come: a guest event exactly where a guest runs, a write of the bus
    /// always, the others exactly where none runs; a write has no more bytes than a chunk; and
    /// nothing comes after Halt or a kernel fault.
    pub fn fits(&self, event: &Event) -> bool
        ensures { result ≡ fits_of self.now.state event.now }
    {
        if self.halted {
            return false;
        }
        match event {
            Event::Do(_) => !self.is_guest_running(),
            Event::Guest { .. } => self.is_guest_running(),
            Event::Null => !self.is_guest_running(),
            Event::Write { length, .. } => !self.is_guest_running() && *length <= Chunk::SIZE,
            Event::Poke { length, .. } => *length <= Chunk::SIZE,
        }
    }

    /// Makes room for one event's entries, or leaves all as before.
    pub fn reserve_event(&mut self) -> Result<(), NoMemory>
        ensures state { self.new.state ≡ self.old.state }
        ensures ok { OnOk result (EVENT_ROOM ≤ self.new.spare) }
        ensures grows { self.old.spare ≤ self.new.spare }
        ensures err { OnErr result (self.new ≡ self.old) }
        ensures enough { EVENT_ROOM ≤ self.old.spare → IsOk result }
    {
        self.core.journal.reserve(EVENT_ROOM)
    }

    /// Makes room for the entries of so many events, at most 1,048,576, or leaves all as before.
    pub fn reserve_run(&mut self, events: u64) -> Result<(), NoMemory>
        requires { events ≤ 2 ^ 20 }
        ensures state { self.new.state ≡ self.old.state }
        ensures ok { OnOk result (events * EVENT_ROOM ≤ self.new.spare) }
        ensures grows { self.old.spare ≤ self.new.spare }
        ensures err { OnErr result (self.new ≡ self.old) }
        ensures enough { events * EVENT_ROOM ≤ self.old.spare → IsOk result }
    {
        self.core.journal.reserve(events * EVENT_ROOM)
    }

    /// Makes one event; the bytes of a write are the first of the chunk. Takes no memory, and of
    /// the journal's room at most that of one event.
    pub fn step(&mut self, event: Event, chunk: &Chunk) -> Outcome
        requires fits { fits_of self.old.state event ≡ true }
        requires room { EVENT_ROOM ≤ self.old.spare }
        requires few { self.old.state.events + 1 < 2 ^ 63 }
        ensures record { self.new.state ≡ (on V.versions self.old.state event chunk.now).0 }
        ensures outcome { result ≡ (on V.versions self.old.state event chunk.now).1 }
        ensures room { self.old.spare ≤ self.new.spare + EVENT_ROOM }
        ensures events { self.new.state.events ≡ self.old.state.events + 1 }

        // What the machine keeps of each guest is kept, whatever the kernel does.
        ensures holds { KeepsHolding V.versions V.Stands self.old.state self.new.state }
        ensures pads { AddsNoPadTwice V.Stands self.old.state self.new.state }
        ensures faults { FaultsAreAlone V.Stands self.old.state self.new.state result }

        // What is seen of the machine afterwards is a function of what was seen before, the event,
        // its bytes and what it emits, whether the journal is honest or not.
        ensures seen { GivesNoMoreAway V.versions V.raised_ram self.old.state event chunk.now self.new.state result }
        ensures refused { LeavesRefused self.old.state event self.new.state }
        ensures traps { TrapsAreQuiet self.old.state event self.new.state result }
        ensures others { LeavesOthers self.old.state event self.new.state }
        ensures counts { AreCounted self.new.state.core self.new.state.events }
        ensures stops { StopsHold self.new.state.core }
    {
        // The machine's type has more to say than its record, before and afterwards.
        let _before = self.events();
        let outcome = self.make_event(event, chunk);
        let _after = self.events();
        outcome
    }

    /// What a kernel is told of the machine.
    #[tactic(auto, unfolding(xom_model::specs::Seen::view_of))]
    pub fn view(&self) -> View<'_>
        ensures { result ≡ view_of self.now.state }
    {
        View::new(
            &self.core.cells,
            &self.core.table,
            &self.core.ram,
            self.status,
            self.cause,
            self.who,
            self.events,
        )
    }

    /// What was recorded. After a Stop of an install nothing of it follows.
    pub fn journal(&self) -> &Journal
        ensures journal { result.now ≡ record { entries = self.now.state.core.entries; spare = self.now.spare } }
        ensures stops { StopsAreLast self.now.state.core.entries }
    {
        &self.core.journal
    }

    /// How many events were made, below 2^63.
    #[tactic(auto, using(xom_seen::proofs::Settled::stops_settle))]
    pub fn events(&self) -> u64
        ensures count { result ≡ self.now.state.events }
        ensures few { result < 2 ^ 63 }
        ensures counts { AreCounted self.now.state.core result }
        ensures stops { StopsHold self.now.state.core }
        ensures stores { length self.now.state.core.stores ≡ 17 }

        // All that the law on what is seen needs of a machine.
        ensures settled { IsSettled self.now.state.core }
    {
        self.events
    }

    /// Whether a slot's guest runs. Looks at 16 slots at most.
    pub fn is_guest_running(&self) -> bool
        ensures { result ≡ is_some (running_of self.now.state) }
    {
        self.core.table.running().is_some()
    }

    /// Whether the kernel halted the machine, or an instruction of null code faulted.
    pub fn is_halted(&self) -> bool
        ensures halted { result ≡ self.now.state.halted }
        ensures first { self.now.state.events ≡ 0 → result ≡ false }
    {
        self.halted
    }

    /// The address and the fault of the null instruction that ended the run, if one did.
    pub fn fault(&self) -> Option<(u32, NullFault)>
        ensures { result ≡ self.now.state.fault }
    {
        self.fault
    }

    fn put(&mut self, address: u32, bytes: &[u8]) -> bool
        ensures answer { result ≡ holds_in self.old.state.core.ram address (length bytes.now) }
        ensures state { self.new ≡ with_loaded self.old address bytes.now }
    {
        put_bytes(&mut self.core.ram, address, bytes)
    }

    #[tactic(auto, unfolding(xom_model::specs::Event::on))]
    fn make_event(&mut self, event: Event, chunk: &Chunk) -> Outcome
        requires fits { fits_of self.old.state event ≡ true }
        requires room { EVENT_ROOM ≤ self.old.spare }
        requires few { self.old.state.events + 1 < 2 ^ 63 }
        ensures record { self.new.state ≡ (on V.versions self.old.state event chunk.now).0 }
        ensures outcome { result ≡ (on V.versions self.old.state event chunk.now).1 }
        ensures room { self.old.spare ≤ self.new.spare + EVENT_ROOM }
    {
        match event {
            Event::Do(op) => self.operate(op),
            Event::Guest { interrupt } => self.run_guest(interrupt),
            Event::Null => self.run_null(),
            Event::Write { address, length } => self.write(address, chunk.front(length)),
            Event::Poke { address, length } => self.poke(address, chunk.front(length)),
        }
    }

    /// An operation, with its status.
    fn operate(&mut self, op: Op) -> Outcome
        requires room { EVENT_ROOM ≤ self.old.spare }
        requires few { self.old.state.events + 1 < 2 ^ 63 }
        ensures record { self.new.state ≡ (after_operation self.old.state op (operation V.versions self.old.state.core op)).0 }
        ensures outcome { result ≡ (after_operation self.old.state op (operation V.versions self.old.state.core op)).1 }
        ensures room { self.old.spare ≤ self.new.spare + EVENT_ROOM }
    {
        let status = operate(&mut self.core, op);
        self.status = status;
        self.events += 1;
        self.halted = is_halt(op);
        outcome(op)
    }

    /// An event of the guest that runs.
    fn run_guest(&mut self, interrupt: bool) -> Outcome
        requires room { EVENT_ROOM ≤ self.old.spare }
        requires few { self.old.state.events + 1 < 2 ^ 63 }
        ensures record { self.new.state ≡ (guest_turn V.versions self.old.state interrupt (running_of self.old.state)).0 }
        ensures outcome { result ≡ (guest_turn V.versions self.old.state interrupt (running_of self.old.state)).1 }
        ensures room { self.old.spare ≤ self.new.spare + EVENT_ROOM }
    {
        let Some(slot) = self.core.table.running() else {
            return Outcome::Went;
        };
        let left = guest_event(&mut self.core, slot, interrupt);
        self.events += 1;
        match left {
            None => Outcome::Went,
            Some(cause) => {
                self.cause = cause;
                self.who = slot;
                Outcome::Left(cause)
            }
        }
    }

    /// An instruction of null code, and the operation that it asks for.
    fn run_null(&mut self) -> Outcome
        requires room { EVENT_ROOM ≤ self.old.spare }
        requires few { self.old.state.events + 1 < 2 ^ 63 }
        ensures record { self.new.state ≡ (null_turn V.versions self.old.state (null_step (told_in self.old.state) (open_in self.old.state))).0 }
        ensures outcome { result ≡ (null_turn V.versions self.old.state (null_step (told_in self.old.state) (open_in self.old.state))).1 }
        ensures room { self.old.spare ≤ self.new.spare + EVENT_ROOM }
    {
        let at = self.pair.0;
        match self.ask_null() {
            Err(fault) => {
                self.events += 1;
                self.halted = true;
                self.fault = Some((at, fault));
                Outcome::KernelFault { pc: at, fault }
            }
            Ok(None) => {
                self.events += 1;
                Outcome::Went
            }
            Ok(Some(op)) => self.operate(op),
        }
    }

    /// An instruction of null code. The operation that it asks for isn't carried out yet.
    fn ask_null(&mut self) -> Result<Option<Op>, NullFault>
        ensures record { self.new.state ≡ with_open self.old.state (null_step (told_in self.old.state) (open_in self.old.state)).0 }
        ensures answer { result ≡ (null_step (told_in self.old.state) (open_in self.old.state)).1 }
        ensures room { self.new.spare ≡ self.old.spare }
    {
        null_event(
            &mut self.core.cells,
            &mut self.core.ram,
            &mut self.pair,
            self.status,
            self.cause,
            self.who,
        )
    }

    /// A kernel write: refused as a whole where RAM doesn't hold it.
    fn write(&mut self, address: u32, bytes: &[u8]) -> Outcome
        requires few { self.old.state.events + 1 < 2 ^ 63 }
        ensures record { self.new.state ≡ (after_kernel_write self.old.state address bytes.now).0 }
        ensures outcome { result ≡ (after_kernel_write self.old.state address bytes.now).1 }
        ensures room { self.new.spare ≡ self.old.spare }
    {
        let fits = put_bytes(&mut self.core.ram, address, bytes);
        self.status = if fits { 0 } else { 4 };
        self.events += 1;
        Outcome::Went
    }

    /// A write of the bus, which leaves the status as it is.
    fn poke(&mut self, address: u32, bytes: &[u8]) -> Outcome
        requires few { self.old.state.events + 1 < 2 ^ 63 }
        ensures record { self.new.state ≡ with_ram self.old.state (ram_after_write self.old.state.core.ram address bytes.now) }
        ensures outcome { result ≡ Outcome.Went }
        ensures room { self.new.spare ≡ self.old.spare }
    {
        put_bytes(&mut self.core.ram, address, bytes);
        self.events += 1;
        Outcome::Went
    }
}

/// Puts bytes into RAM, or nothing where it doesn't hold the range.
#[tactic(auto, unfolding(xom_model::specs::Null::ram_after_write))]
fn put_bytes(ram: &mut LineRam, address: u32, bytes: &[u8]) -> bool
    ensures answer { result ≡ holds_in ram.old address (length bytes.now) }
    ensures bytes { ram.new ≡ ram_after_write ram.old address bytes.now }
    ensures size { length ram.new ≡ length ram.old }
{
    let fits = u64::from(address) + bytes.len() as u64 <= u64::from(ram.size());
    if fits {
        ram.write(address, bytes);
    }
    fits
}

fn is_halt(op: Op) -> bool
    ensures { result ≡ is_halt_of op }
{
    matches!(op, Op::Halt)
}

/// What an operation comes to, done or refused.
fn outcome(op: Op) -> Outcome
    ensures { result ≡ outcome_of op }
{
    if is_halt(op) {
        Outcome::Halted
    } else {
        Outcome::Went
    }
}
