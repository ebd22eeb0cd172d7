ghost use Rattle.std.specs.Prelude.{◌≡◌, ◌≤◌, ◌<◌, ◌+◌, ◌^◌, ◌++◌, [], ◌∷◌, false, IfOk, OnOk};
ghost use Rattle.circular_buffer.specs.Buffer.{buffer, keep_last};
ghost use Rattle.xom_model.specs.Run.{IsSchedule};
ghost use Rattle.xom_model.specs.Seen.{view_of};
ghost use Rattle.xom_machine.specs.Runs.{guests_in};
ghost use Rattle.xom_debug.specs.DebugTexts.{kept_events};
ghost use Rattle.xom_debug.specs.Moments.{has_left as has_left_in, is_guest as is_guest_event, is_run_over as is_over_at};
ghost use Rattle.xom_debug.specs.Sessions.{Advances, HasNoted, Makes};
ghost use Rattle.xom_debug.specs.declared.command.Command.TheVariants as command_kinds;

use crate::command::Command;
use circular_buffer::HeapCircularBuffer;
use std::alloc::Global;
use xom_base::{Event, NoMemory, Schedule};
use xom_machine::{Chunk, Kernel, Machine, next_event};
use xom_versions::VersionStore;

/// How many events are kept for `last`.
const KEPT_EVENTS: usize = 64;

/// An event with its number, counted from 1 over all events of the run.
#[derive(Clone, Copy)]
pub struct Noted {
    /// Its number.
    pub number: u64,
    /// What happened.
    pub event: Event,
}

/// What a debugger keeps of a run.
#[derive(Drop)]
pub struct Session {
    /// How many of the events so far were guest events.
    pub guests: u64,
    /// The last 64 events.
    pub last: HeapCircularBuffer<Noted>,
}

impl Session {
    /// Before the first event of a run.
    pub fn new(alloc: Global) -> Result<Session, NoMemory>
        ensures guests { IfOk result (λ s. s.guests ≡ 0) }
        ensures noted { IfOk result (λ s. HasNoted [] s) }
    {
        Ok(Session {
            guests: 0,
            last: HeapCircularBuffer::with_capacity(alloc, KEPT_EVENTS)?,
        })
    }

    /// Makes the events that a command asks for. It costs what the events cost.
    pub fn advance<V: VersionStore, K: Kernel>(
        &mut self,
        command: Command,
        machine: &mut Machine<V>,
        kernel: &mut K,
        schedule: &Schedule,
        budget: u64,
        chunk: &mut Chunk,
    ) -> Result<(), NoMemory>
        requires schedule { IsSchedule schedule.now }
        requires few { budget < 2 ^ 63 }
        requires guests { self.old.guests ≤ machine.old.state.events }
        ensures { OnOk result (Advances K.told schedule.now V.versions budget command self.old machine.old kernel.old self.new machine.new kernel.new) }
    {
        match command {
            Command::Step(count) => self.step(count, machine, kernel, schedule, budget, chunk),
            Command::UntilTrap => self.until_trap(machine, kernel, schedule, budget, chunk),
            Command::Reg(_) => Ok(()),
            Command::Slot(_) => Ok(()),
            Command::Last => Ok(()),
            Command::Ram { .. } => Ok(()),
        }
    }

    /// Makes so many events, or those up to the run's end.
    fn step<V: VersionStore, K: Kernel>(
        &mut self,
        count: u64,
        machine: &mut Machine<V>,
        kernel: &mut K,
        schedule: &Schedule,
        budget: u64,
        chunk: &mut Chunk,
    ) -> Result<(), NoMemory>
        requires schedule { IsSchedule schedule.now }
        requires few { budget < 2 ^ 63 }
        requires guests { self.old.guests ≤ machine.old.state.events }
        ensures { OnOk result (Advances K.told schedule.now V.versions budget (command_kinds.Step count) self.old machine.old kernel.old self.new machine.new kernel.new) }
    {
        for _event in 0..count {
            if is_over(machine, budget) {
                return Ok(());
            }
            self.make_next(machine, kernel, schedule, chunk)?;
        }
        Ok(())
    }

    /// Makes events until a guest has left, or up to the run's end.
    fn until_trap<V: VersionStore, K: Kernel>(
        &mut self,
        machine: &mut Machine<V>,
        kernel: &mut K,
        schedule: &Schedule,
        budget: u64,
        chunk: &mut Chunk,
    ) -> Result<(), NoMemory>
        requires schedule { IsSchedule schedule.now }
        requires few { budget < 2 ^ 63 }
        requires guests { self.old.guests ≤ machine.old.state.events }
        ensures { OnOk result (Advances K.told schedule.now V.versions budget command_kinds.UntilTrap self.old machine.old kernel.old self.new machine.new kernel.new) }
    {
        for _event in 0..budget {
            if is_over(machine, budget) {
                return Ok(());
            }
            let event = self.make_next(machine, kernel, schedule, chunk)?;
            if has_left(event, machine) {
                return Ok(());
            }
        }
        Ok(())
    }

    /// Makes the next event of the run, notes it, and answers it.
    fn make_next<V: VersionStore, K: Kernel>(
        &mut self,
        machine: &mut Machine<V>,
        kernel: &mut K,
        schedule: &Schedule,
        chunk: &mut Chunk,
    ) -> Result<Event, NoMemory>
        requires going { machine.old.state.halted ≡ false }
        requires schedule { IsSchedule schedule.now }
        requires few { self.old.guests < 2 ^ 63 }
        requires count { machine.old.state.events + 1 < 2 ^ 63 }
        ensures { IfOk result (λ event. Makes K.told schedule.now V.versions self.old machine.old kernel.old event self.new machine.new kernel.new) }
    {
        let event = next_event(machine, kernel, schedule, self.guests, chunk);
        machine.reserve_event()?;
        machine.step(event, chunk);
        self.note(machine.events(), event);
        Ok(event)
    }

    /// Counts an event of this number where it is a guest event, and keeps it.
    fn note(&mut self, number: u64, event: Event)
        requires { self.old.guests < 2 ^ 63 }
        ensures guests { self.new.guests ≡ self.old.guests + guests_in event }
        ensures last { self.new.last ≡ buffer (keep_last self.old.last.capacity (self.old.last.items ++ record { number = number; event = event } ∷ [])) self.old.last.capacity }
    {
        if is_guest(event) {
            self.guests += 1;
        }
        self.last.push_back(Noted { number, event });
    }
}

/// Whether a run of so many events at the most is over.
fn is_over<V: VersionStore>(machine: &Machine<V>, budget: u64) -> bool
    ensures value { result ≡ is_over_at budget machine.now.state }
    ensures going { result ≡ false → (machine.now.state.halted ≡ false) × (machine.now.state.events < budget) }
{
    machine.is_halted() || machine.events() >= budget
}

/// Whether a guest left at this event, behind which the machine stands.
fn has_left<V: VersionStore>(event: Event, machine: &Machine<V>) -> bool
    ensures { result ≡ has_left_in event (view_of machine.now.state) }
{
    is_guest(event) && !machine.is_guest_running()
}

fn is_guest(event: Event) -> bool
    ensures { result ≡ is_guest_event event }
{
    matches!(event, Event::Guest { .. })
}

const _: () = prove!(KEPT_EVENTS == 64);
