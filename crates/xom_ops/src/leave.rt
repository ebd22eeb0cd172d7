ghost use Rattle.std.specs.Prelude.{◌≡◌, ◌≤◌, ◌+◌};
ghost use Rattle.xom_base.specs.declared.entry.Entry.TheVariants as entry;
ghost use Rattle.xom_model.specs.Operation.{after_kill, kill as kill_of};
ghost use Rattle.xom_model.specs.State.{with_entry};

use crate::tests::is_bad_slot;
use xom_base::Entry;
use xom_private::Core;
use xom_versions::VersionStore;

/// Frees a slot: no cell, no cached line and no page is left of its guest. 0, or 1 for a bad slot.
pub fn kill<V: VersionStore>(core: &mut Core<V>, slot: u32) -> u32
    requires { 48 ≤ core.old.spare }
    ensures core { core.new.core ≡ (kill_of V.versions core.old.core slot).0 }
    ensures status { result ≡ (kill_of V.versions core.old.core slot).1 }
    ensures room { core.old.spare ≤ core.new.spare + 48 }
{
    if is_bad_slot(core, slot) {
        return 1;
    }
    free(core, slot as u8);
    0
}

/// Takes all that is left of a slot's guest away, frees the slot, and records the Kill.
#[tactic(auto, unfolding(xom_model::specs::Access::without_guest))]
fn free<V: VersionStore>(core: &mut Core<V>, slot: u8)
    requires some { 1 ≤ slot }
    requires known { slot ≤ 16 }
    requires room { 48 ≤ core.old.spare }
    ensures core { core.new.core ≡ after_kill V.versions core.old.core slot }
    ensures room { core.old.spare ≤ core.new.spare + 48 }
{
    let kill = Entry::Kill {
        install: core.table.session(slot).install,
    };
    core.cells.scrub(slot);
    core.cache.drop_slot(slot);
    core.pages.drop_slot(slot);
    core.table.kill(slot);
    core.journal.push(&kill);
}

/// Writes a byte to the console.
pub fn out<V: VersionStore>(core: &mut Core<V>, byte: u8)
    requires { 48 ≤ core.old.spare }
    ensures core { core.new.core ≡ with_entry core.old.core (entry.Out byte) }
    ensures room { core.old.spare ≤ core.new.spare + 48 }
{
    core.journal.push(&Entry::Out { byte });
}
