ghost use Rattle.std.specs.Prelude.{◌≡◌, ◌<◌};
ghost use Rattle.mips_effect.specs.Effects.{AreCells, write_of_register as set_of};
ghost use Rattle.xom_model.specs.Null.{open_cell, seen_open, with_null_writes};

use mips_effect::Seen;
use tag_regs::Cells;
use xom_base::Writes;

/// What null code sees in a cell, 0 to 33: $0 is zero.
pub fn seen(cells: &Cells, reg: u8) -> Seen
    requires { reg < 34 }
    ensures { result ≡ seen_open cells.now reg }
{
    if reg == 0 {
        return Seen::Value(0);
    }
    let (value, tag) = cells.get(reg);
    seen_cell(value, tag)
}

/// The value of a cell of the null compartment; any other cell is foreign.
fn seen_cell(value: u32, tag: u8) -> Seen
    ensures { result ≡ open_cell (record { value = value; tag = tag }) }
{
    if tag == 0 {
        Seen::Value(value)
    } else {
        Seen::Foreign
    }
}

/// A written cell is of the null compartment.
pub fn write(cells: &mut Cells, writes: Writes)
    requires { AreCells writes }
    ensures { cells.new ≡ with_null_writes cells.old writes }
{
    match writes {
        Writes::Nothing => {}
        Writes::One { reg, value } => cells.set(reg, value, 0),
        Writes::Pair { hi, lo } => {
            cells.set(32, hi, 0);
            cells.set(33, lo, 0);
        }
    }
}

/// Writes one register, 0 to 33, where a value for $0 is dropped.
pub fn write_one(cells: &mut Cells, reg: u8, value: u32)
    requires { reg < 34 }
    ensures { cells.new ≡ with_null_writes cells.old (set_of reg value) }
{
    if reg != 0 {
        cells.set(reg, value, 0);
    }
}
