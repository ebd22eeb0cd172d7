ghost use Rattle.std.specs.Prelude.{◌≡◌, ◌≤◌, ◌<◌, ◌+◌, ◌^◌};
ghost use Rattle.mips_effect.specs.Effects.{Ranged};
ghost use Rattle.mips_plain.specs.Inside.{IsInside};
ghost use Rattle.xom_model.specs.Guest.{address_in, after_exit, after_retirement, after_step as after_step_of, after_trap, retirement as retires_of};
ghost use Rattle.xom_model.specs.Holds.{IsRunning};
ghost use Rattle.xom_model.specs.State.{session_of};
ghost use Rattle.xom_guest.specs.Places.{IsPlaceFor, StoresIn};

use crate::session::moved;
use crate::{cells, lines, memory};
use mips_effect::effects::Effect;
use mips_plain::step_made;
use session_table::SlotState;
use xom_base::{Cause, Entry, Step, StepEnd};
use xom_private::Core;
use xom_versions::VersionStore;

/// An effect retires, where this word is what it loads from and the line at this place is what it
/// stores in. What follows is the end of its step.
pub fn retires<V: VersionStore>(
    core: &mut Core<V>,
    slot: u8,
    interrupt: bool,
    effect: &Effect,
    word: u32,
    place: u32,
) -> Option<Cause>
    requires some { 1 ≤ slot }
    requires known { slot ≤ 16 }
    requires runs { IsRunning core.old.core slot }
    requires epoch { (session_of core.old.core slot).epoch < 2 ^ 63 }
    requires ranged { Ranged effect.now }
    requires place { IsPlaceFor core.old.core.ways slot place (address_in effect.now.wish) }
    requires room { 200 ≤ core.old.spare }
    ensures core { core.new.core ≡ (retires_of core.old.core slot interrupt effect.now word place).0 }
    ensures cause { result ≡ (retires_of core.old.core slot interrupt effect.now word place).1 }
    ensures room { core.old.spare ≤ core.new.spare + 200 }
{
    let session = *core.table.session(slot);
    let got = cells::received(&core.cells, &core.ram, effect.wish);
    let step = step_made(session.pc, session.npc, effect, word, got);
    retire(core, slot, place, effect, &step);
    after_step(core, slot, interrupt, step.end)
}

/// The instruction retires with this step, which is recorded.
fn retire<V: VersionStore>(core: &mut Core<V>, slot: u8, place: u32, effect: &Effect, step: &Step)
    requires some { 1 ≤ slot }
    requires known { slot ≤ 16 }
    requires runs { IsRunning core.old.core slot }
    requires inside { IsInside step.now }
    requires line { StoresIn core.old.core.ways slot place step.now.stored }
    requires room { 100 ≤ core.old.spare }
    ensures core { core.new.core ≡ after_retirement core.old.core slot place effect.now step.now }
    ensures room { core.old.spare ≤ core.new.spare + 100 }
{
    let session = *core.table.session(slot);
    cells::carry_out(slot, &mut core.cells, step);
    *core.table.session_mut(slot) = moved(&session, effect, step);
    lines::store(&mut core.cache, place, step.stored);
    memory::give_out(&mut core.ram, step.released);
    core.journal.push(&Entry::Step {
        install: session.install,
        step: *step,
    });
}

/// What follows a step: its own end comes before the interrupt line.
fn after_step<V: VersionStore>(
    core: &mut Core<V>,
    slot: u8,
    interrupt: bool,
    end: StepEnd,
) -> Option<Cause>
    requires some { 1 ≤ slot }
    requires known { slot ≤ 16 }
    requires runs { IsRunning core.old.core slot }
    requires epoch { (session_of core.old.core slot).epoch < 2 ^ 63 }
    requires room { 100 ≤ core.old.spare }
    ensures core { core.new.core ≡ (after_step_of core.old.core slot interrupt end).0 }
    ensures cause { result ≡ (after_step_of core.old.core slot interrupt end).1 }
    ensures room { core.old.spare ≤ core.new.spare + 100 }
{
    match end {
        StepEnd::Call(code) => trap(core, slot, Cause::Call(code)),
        StepEnd::Exit => finish(core, slot),
        StepEnd::Goes => {
            if interrupt {
                trap(core, slot, Cause::Interrupt)
            } else {
                None
            }
        }
    }
}

/// The guest leaves to come back, under the next epoch and with the keys of its registers under that,
/// and its trap is recorded.
pub fn trap<V: VersionStore>(core: &mut Core<V>, slot: u8, cause: Cause) -> Option<Cause>
    requires some { 1 ≤ slot }
    requires known { slot ≤ 16 }
    requires runs { IsRunning core.old.core slot }
    requires epoch { (session_of core.old.core slot).epoch < 2 ^ 63 }
    requires room { 100 ≤ core.old.spare }
    ensures core { core.new.core ≡ (after_trap core.old.core slot cause).0 }
    ensures cause { result ≡ (after_trap core.old.core slot cause).1 }
    ensures room { core.old.spare ≤ core.new.spare + 100 }
{
    let session = core.table.session(slot).paused();
    core.keys.renew(
        slot,
        &session.key,
        core.boot,
        session.install,
        session.epoch,
    );
    *core.table.session_mut(slot) = session;
    core.journal.push(&Entry::Trap {
        install: session.install,
        cause,
    });
    Some(cause)
}

/// The guest leaves for good by `xexit`.
fn finish<V: VersionStore>(core: &mut Core<V>, slot: u8) -> Option<Cause>
    requires some { 1 ≤ slot }
    requires known { slot ≤ 16 }
    ensures core { core.new.core ≡ (after_exit core.old.core slot).0 }
    ensures cause { result ≡ (after_exit core.old.core slot).1 }
    ensures room { core.new.spare ≡ core.old.spare }
{
    core.leave(slot, SlotState::Ended);
    Some(Cause::Exit)
}
