ghost use Rattle.std.specs.Prelude.{◌≡◌, ◌≤◌, ◌<◌, ◌+◌, ◌^◌};
ghost use Rattle.xom_model.specs.Operation.{operation};

use crate::guests::{enter, resume};
use crate::installs::install;
use crate::leave::{kill, out};
use crate::pages::map_page;
use crate::registers::set_register;
use crate::saves::{restore_register, save_register};
use crate::tests::is_slot;
use crate::unmap::unmap_page;
use xom_base::Op;
use xom_private::{Core, EVENT_ROOM};
use xom_versions::VersionStore;

/// Carries an operation out, and answers its status: 0 where it was done, 1 to 7 where it was refused
/// and nothing changed, 8 where it stopped the guest of its slot. Takes no memory, and of the
/// journal's room at most that of one event.
#[tactic(auto, unfolding(xom_model::specs::Operation::operation))]
pub fn operate<V: VersionStore>(core: &mut Core<V>, op: Op) -> u32
    requires number { core.old.core.installs < 2 ^ 63 }
    requires room { EVENT_ROOM ≤ core.old.spare }
    ensures core { core.new.core ≡ (operation V.versions core.old.core op).0 }
    ensures status { result ≡ (operation V.versions core.old.core op).1 }
    ensures room { core.old.spare ≤ core.new.spare + EVENT_ROOM }
{
    match op {
        Op::Install {
            slot,
            envelope,
            area,
        } => install(core, slot, envelope, area),
        Op::Enter { slot } => {
            if is_slot(slot) {
                enter(core, slot as u8)
            } else {
                1
            }
        }
        Op::Resume { slot, signal } => {
            if is_slot(slot) {
                resume(core, slot as u8, signal)
            } else {
                1
            }
        }
        Op::Save { slot, reg, address } => save_register(core, slot, reg, address),
        Op::Restore { slot, reg, address } => restore_register(core, slot, reg, address),
        Op::Map { slot, page, frame } => map_page(core, slot, page, frame),
        Op::Unmap { slot, page } => unmap_page(core, slot, page),
        Op::SetReg { reg, value } => set_register(core, reg, value),
        Op::Kill { slot } => kill(core, slot),
        Op::Out { byte } => {
            out(core, byte);
            0
        }
        Op::Halt => 0,
    }
}
