ghost use Rattle.std.specs.Prelude.{◌≡◌, ◌≤◌, ◌<◌};
ghost use Rattle.xom_model.specs.Operation.{is_missing as is_missing_of, missing_cell as missing_of};

use session_table::owns;
use tag_regs::Cells;

/// The least cell of a set that hasn't a slot's tag.
pub fn missing(slot: u8, mask: u64, cells: &Cells) -> Option<u8>
    ensures { result ≡ missing_of slot mask cells.now }
{
    for reg in 1..34 {
        if is_missing(slot, mask, cells, reg) {
            return Some(reg);
        }
    }
    None
}

/// Whether a cell, 1 to 33, is in the set and hasn't the slot's tag.
fn is_missing(slot: u8, mask: u64, cells: &Cells, reg: u8) -> bool
    requires some { 1 ≤ reg }
    requires known { reg < 34 }
    ensures { result ≡ is_missing_of slot mask cells.now reg }
{
    owns(mask, reg) && cells.get(reg).1 != slot
}
