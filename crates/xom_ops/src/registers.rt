ghost use Rattle.std.specs.Prelude.{◌≡◌, ◌≤◌};
ghost use Rattle.xom_model.specs.Operation.{set_register as set_register_of};

use crate::tests::is_cell;
use xom_private::Core;
use xom_versions::VersionStore;

/// Sets a cell to a value of the null compartment, whatever it was: 0, or 7 where there is no such cell.
pub fn set_register<V: VersionStore>(core: &mut Core<V>, reg: u32, value: u32) -> u32
    ensures core { core.new.core ≡ (set_register_of core.old.core reg value).0 }
    ensures status { result ≡ (set_register_of core.old.core reg value).1 }
    ensures room { core.new.spare ≡ core.old.spare }
{
    if !is_cell(reg) {
        return 7;
    }
    core.cells.set(reg as u8, value, 0);
    0
}
