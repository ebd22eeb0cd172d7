ghost use Rattle.std.specs.Prelude.{◌≡◌, ◌≤◌, ◌<◌, ◌+◌, ◌*◌, ◌^◌, ◌↔◌, true, false, List, ℕ, None, Some, length, IfSome, OnOk, OnErr, IsOk};
ghost use Rattle.xom_model.specs.declared.outcome.NullFault.{NullFault as AnyFault};
ghost use Rattle.xom_model.specs.Counts.{AreCounted};
ghost use Rattle.xom_model.specs.Run.{IsSchedule, end_by, run_from};
ghost use Rattle.xom_model.specs.Stops.{StopsHold};
ghost use Rattle.xom_machine.specs.Kept.{KeepsHolding};
ghost use Rattle.xom_machine.specs.Runs.{IsRun, Made, Ran, WentOn, guests_in as guests_in_event};

use crate::{Chunk, Kernel, Machine, next_event};
use xom_base::{Event, NoMemory, Schedule};
use xom_model::outcome::RunEnd;
use xom_private::EVENT_ROOM;
use xom_versions::VersionStore;

/// Runs a kernel over a machine from its first event on, up to the kernel's Halt, to a fault of
/// null code, or to so many events. Each event is made by `next_event`, `reserve_event` and `step`.
/// Want of memory is answered only where the journal had less room than all the events of the
/// budget may take.
pub fn run<V: VersionStore, K: Kernel>(
    machine: &mut Machine<V>,
    kernel: &mut K,
    schedule: &Schedule,
    budget: u64,
    chunk: &mut Chunk,
) -> RunEnd
    requires first { machine.old.state.events ≡ 0 }
    requires schedule { IsSchedule schedule.now }
    requires few { budget < 2 ^ 63 }

    // What the machine keeps of each guest is kept, whatever the kernel does.
    ensures holds { KeepsHolding V.versions V.Stands machine.old.state machine.new.state }
    ensures stops { StopsHold machine.new.state.core }

    // The record comes from the old one by events, each of which may come where it does, in its
    // turn, and by no others.
    ensures made { (events : List Made) × (length events ≡ machine.new.state.events) × IsRun schedule.now V.versions 0 machine.old.state events machine.new.state }

    // Where the kernel tells its turns, it is that of the run that they make.
    ensures told { IfSome (run_from V.versions K.told schedule.now machine.new.state.events 0 machine.old.state kernel.old) (λ r. machine.new.state ≡ r) }
    ensures whole { ¬ (result ≡ RunEnd.NoMemory) → IfSome (run_from V.versions K.told schedule.now budget 0 machine.old.state kernel.old) (λ r. machine.new.state ≡ r) }
    ensures count { machine.new.state.events ≤ budget }
    ensures halted { (result ≡ RunEnd.Halted) ↔ ((machine.new.state.halted ≡ true) × (machine.new.state.fault ≡ None)) }
    ensures fault { (at : ℕ) (why : AnyFault) → (result ≡ RunEnd.KernelFault at why) ↔ ((machine.new.state.halted ≡ true) × (machine.new.state.fault ≡ Some (at, why))) }
    ensures budget { (result ≡ RunEnd.Budget) ↔ ((machine.new.state.events ≡ budget) × (machine.new.state.halted ≡ false)) }
    ensures memory { result ≡ RunEnd.NoMemory → machine.old.spare < budget * EVENT_ROOM }
{
    let end = make_events(machine, kernel, schedule, budget, chunk);
    // The machine's type has more to say than its record.
    let _events = machine.events();
    end
}

fn make_events<V: VersionStore, K: Kernel>(
    machine: &mut Machine<V>,
    kernel: &mut K,
    schedule: &Schedule,
    budget: u64,
    chunk: &mut Chunk,
) -> RunEnd
    requires first { machine.old.state.events ≡ 0 }
    requires schedule { IsSchedule schedule.now }
    requires few { budget < 2 ^ 63 }
    ensures { Ran K.told schedule.now V.versions budget machine.old kernel.old result machine.new }
{
    let mut guests = 0;
    for _event in 0..budget {
        if machine.is_halted() {
            return ending(machine);
        }
        if make_next(machine, kernel, schedule, &mut guests, chunk).is_err() {
            return RunEnd::NoMemory;
        }
    }
    if machine.is_halted() {
        ending(machine)
    } else {
        RunEnd::Budget
    }
}

/// How a machine ended that goes on no more.
fn ending<V: VersionStore>(machine: &Machine<V>) -> RunEnd
    ensures { result ≡ end_by machine.now.state.fault }
{
    match machine.fault() {
        None => RunEnd::Halted,
        Some((pc, fault)) => RunEnd::KernelFault { pc, fault },
    }
}

/// Makes the next event of a run, and counts it where it is a guest event.
fn make_next<V: VersionStore, K: Kernel>(
    machine: &mut Machine<V>,
    kernel: &mut K,
    schedule: &Schedule,
    guests: &mut u64,
    chunk: &mut Chunk,
) -> Result<(), NoMemory>
    requires going { machine.old.state.halted ≡ false }
    requires schedule { IsSchedule schedule.now }
    requires few { guests.old < 2 ^ 63 }
    requires count { machine.old.state.events + 1 < 2 ^ 63 }
    ensures ok { OnOk result (WentOn K.told schedule.now V.versions guests.old machine.old kernel.old guests.new machine.new kernel.new) }
    ensures err { OnErr result (machine.new ≡ machine.old) }
    ensures enough { EVENT_ROOM ≤ machine.old.spare → IsOk result }
{
    let event = next_event(machine, kernel, schedule, *guests, chunk);
    machine.reserve_event()?;
    *guests += guests_in(event);
    machine.step(event, chunk);
    Ok(())
}

/// 1 for a guest event.
fn guests_in(event: Event) -> u64
    ensures { result ≡ guests_in_event event }
{
    match event {
        Event::Guest { .. } => 1,
        Event::Do(_) | Event::Null | Event::Write { .. } | Event::Poke { .. } => 0,
    }
}
