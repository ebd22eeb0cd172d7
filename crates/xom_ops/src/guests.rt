ghost use Rattle.std.specs.Prelude.{◌≡◌, ◌≤◌, ◌+◌};
ghost use Rattle.session_table.specs.declared.session.SlotState.TheVariants as state;
ghost use Rattle.session_table.specs.Sessions.{session_after_enter, session_after_resume};
ghost use Rattle.xom_model.specs.Holds.{IsLive};
ghost use Rattle.xom_model.specs.Operation.{enter as enter_of, resume as resume_of, resume_or_stop as go_on_of, resume_paused as resume_paused_of};
ghost use Rattle.xom_model.specs.State.{core_with_session, session_of};

use crate::missing::missing;
use crate::signal::{takes, with_signal};
use session_table::SlotState;
use xom_base::Rule;
use xom_private::Core;
use xom_versions::VersionStore;

/// Starts the fresh guest of a slot, 1 to 16, at its entry: 0, or 1 for a free slot, 2 for any other.
pub fn enter<V: VersionStore>(core: &mut Core<V>, slot: u8) -> u32
    requires some { 1 ≤ slot }
    requires known { slot ≤ 16 }
    ensures core { core.new.core ≡ (enter_of core.old.core slot (session_of core.old.core slot).state).0 }
    ensures status { result ≡ (enter_of core.old.core slot (session_of core.old.core slot).state).1 }
    ensures room { core.new.spare ≡ core.old.spare }
{
    match core.table.session(slot).state {
        SlotState::Free => 1,
        SlotState::Fresh => {
            start(core, slot);
            0
        }
        _ => 2,
    }
}

/// Makes a fresh guest the one that runs, at its entry.
fn start<V: VersionStore>(core: &mut Core<V>, slot: u8)
    requires some { 1 ≤ slot }
    requires known { slot ≤ 16 }
    requires fresh { (session_of core.old.core slot).state ≡ state.Fresh }
    ensures core { core.new.core ≡ core_with_session core.old.core slot (session_after_enter (session_of core.old.core slot)) }
    ensures room { core.new.spare ≡ core.old.spare }
{
    let session = *core.table.session(slot);
    *core.table.session_mut(slot) = session.entered();
}

/// Goes on with the paused guest of a slot, 1 to 16, with a signal or 0 for none: 0, or 1 for a free
/// slot, 2 for another that isn't paused or doesn't take the signal, 7 for a signal above 63, and 8
/// where the guest is stopped since a register of its own is missing.
pub fn resume<V: VersionStore>(core: &mut Core<V>, slot: u8, signal: u32) -> u32
    requires some { 1 ≤ slot }
    requires known { slot ≤ 16 }
    requires room { 100 ≤ core.old.spare }
    ensures core { core.new.core ≡ (resume_of core.old.core slot signal (session_of core.old.core slot).state).0 }
    ensures status { result ≡ (resume_of core.old.core slot signal (session_of core.old.core slot).state).1 }
    ensures room { core.old.spare ≤ core.new.spare + 100 }
{
    match core.table.session(slot).state {
        SlotState::Free => 1,
        SlotState::Paused => resume_paused(core, slot, signal),
        _ => 2,
    }
}

/// Goes on with a paused guest, if it takes the signal.
fn resume_paused<V: VersionStore>(core: &mut Core<V>, slot: u8, signal: u32) -> u32
    requires some { 1 ≤ slot }
    requires known { slot ≤ 16 }
    requires live { IsLive core.old.core slot }
    requires room { 100 ≤ core.old.spare }
    ensures core { core.new.core ≡ (resume_paused_of core.old.core slot signal).0 }
    ensures status { result ≡ (resume_paused_of core.old.core slot signal).1 }
    ensures room { core.old.spare ≤ core.new.spare + 100 }
{
    if signal > 63 {
        return 7;
    }
    let session = *core.table.session(slot);
    if !takes(&session, signal) {
        return 2;
    }
    let reg = missing(slot, session.mask, &core.cells);
    go_on(core, slot, signal, reg)
}

/// Lets a guest run where no cell that it owns is missing, and else stops it.
fn go_on<V: VersionStore>(core: &mut Core<V>, slot: u8, signal: u32, reg: Option<u8>) -> u32
    requires some { 1 ≤ slot }
    requires known { slot ≤ 16 }
    requires live { IsLive core.old.core slot }
    requires room { 100 ≤ core.old.spare }
    ensures core { core.new.core ≡ (go_on_of core.old.core slot signal reg).0 }
    ensures status { result ≡ (go_on_of core.old.core slot signal reg).1 }
    ensures room { core.old.spare ≤ core.new.spare + 100 }
{
    match reg {
        None => {
            run(core, slot);
            with_signal(core, slot, signal);
            0
        }
        Some(reg) => {
            core.stop(slot, Rule::RegisterMissing(reg));
            8
        }
    }
}

/// Makes a slot's guest the one that runs, where it was.
fn run<V: VersionStore>(core: &mut Core<V>, slot: u8)
    requires some { 1 ≤ slot }
    requires known { slot ≤ 16 }
    requires live { IsLive core.old.core slot }
    ensures core { core.new.core ≡ core_with_session core.old.core slot (session_after_resume (session_of core.old.core slot)) }
    ensures room { core.new.spare ≡ core.old.spare }
{
    let session = *core.table.session(slot);
    *core.table.session_mut(slot) = session.resumed();
}
