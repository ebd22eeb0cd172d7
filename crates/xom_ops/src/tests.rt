ghost use Rattle.std.specs.Prelude.{◌≡◌, ◌≤◌, false};
ghost use Rattle.xom_model.specs.Operation.{can_come_back as waits_of, is_bad_slot as is_bad_slot_of, is_cell as is_cell_of, is_free_state, is_paused as is_paused_of, is_slot as is_slot_of};
ghost use Rattle.xom_model.specs.State.{ram_holds_range as holds_of};

use line_ram::LineRam;
use session_table::SlotState;
use xom_private::Core;
use xom_versions::VersionStore;

/// Whether a number names a slot.
pub fn is_slot(slot: u32) -> bool
    ensures { result ≡ is_slot_of slot }
{
    1 <= slot && slot <= 16
}

/// Whether a number names a cell.
pub fn is_cell(reg: u32) -> bool
    ensures { result ≡ is_cell_of reg }
{
    1 <= reg && reg <= 33
}

/// Whether a slot holds nothing.
pub fn is_free(state: SlotState) -> bool
    ensures { result ≡ is_free_state state }
{
    matches!(state, SlotState::Free)
}

/// Whether a slot's guest may come back, and doesn't run.
pub fn waits(state: SlotState) -> bool
    ensures { result ≡ waits_of state }
{
    matches!(state, SlotState::Fresh | SlotState::Paused)
}

/// Whether a slot's guest left and may come back.
pub fn is_paused(state: SlotState) -> bool
    ensures { result ≡ is_paused_of state }
{
    matches!(state, SlotState::Paused)
}

/// Whether a number names no slot, or one that holds nothing.
pub fn is_bad_slot<V: VersionStore>(core: &Core<V>, slot: u32) -> bool
    ensures test { result ≡ is_bad_slot_of core.now.core slot }
    ensures some { result ≡ false → 1 ≤ slot }
    ensures known { result ≡ false → slot ≤ 16 }
{
    !is_slot(slot) || is_free(core.table.session(slot as u8).state)
}

/// Whether a range lies in RAM.
pub fn holds(ram: &LineRam, address: u32, count: u32) -> bool
    ensures { result ≡ holds_of ram.now address count }
{
    u64::from(address) + u64::from(count) <= u64::from(ram.size())
}
