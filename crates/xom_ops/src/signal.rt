ghost use Rattle.std.specs.Prelude.{◌≡◌, ◌≤◌, ◌+◌};
ghost use Rattle.xom_model.specs.Guest.{after_delivery};
ghost use Rattle.xom_model.specs.Operation.{slot_takes_signal as takes_of, with_signal as with_signal_of};
ghost use Rattle.xom_ops.specs.Signals.{at_handler};

use mips_plain::signal_step;
use session_table::{Session, with_cell};
use xom_base::Entry;
use xom_private::Core;
use xom_versions::VersionStore;

/// Whether a guest takes a signal: there is none, or it has a handler and keeps no pair.
pub fn takes(session: &Session, signal: u32) -> bool
    ensures { result ≡ takes_of session.now signal }
{
    signal == 0 || session.handler != 0 && session.saved.is_none()
}

/// Delivers a signal, if there is one, to the guest of a slot that goes on.
pub fn with_signal<V: VersionStore>(core: &mut Core<V>, slot: u8, signal: u32)
    requires some { 1 ≤ slot }
    requires known { slot ≤ 16 }
    requires room { 48 ≤ core.old.spare }
    ensures core { core.new.core ≡ with_signal_of core.old.core slot signal }
    ensures room { core.old.spare ≤ core.new.spare + 48 }
{
    if signal != 0 {
        deliver(core, slot, signal);
    }
}

/// Delivers a signal: its number is written to $26, the pair is kept, and the guest goes on at its
/// handler.
fn deliver<V: VersionStore>(core: &mut Core<V>, slot: u8, signal: u32)
    requires some { 1 ≤ slot }
    requires known { slot ≤ 16 }
    requires room { 48 ≤ core.old.spare }
    ensures core { core.new.core ≡ after_delivery core.old.core slot signal }
    ensures room { core.old.spare ≤ core.new.spare + 48 }
{
    let session = *core.table.session(slot);
    let step = Entry::Step {
        install: session.install,
        step: signal_step(session.pc, session.npc, signal),
    };
    core.cells.set(26, signal, slot);
    *core.table.session_mut(slot) = signalled(&session);
    core.journal.push(&step);
}

/// The session of a guest to which a signal is delivered.
fn signalled(session: &Session) -> Session
    ensures { result ≡ at_handler session.now }
{
    let handler = session.handler;
    Session {
        pc: handler,
        npc: handler.wrapping_add(4),
        mask: with_cell(session.mask, 26),
        saved: Some((session.pc, session.npc)),
        ..*session
    }
}
