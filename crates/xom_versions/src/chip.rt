ghost use Rattle.std.specs.Prelude.{◌≡◌, ◌≤◌, ◌<◌, ◌+◌, IfOk, length};
ghost use Rattle.xom_versions.specs.Chip.{ChipStands, chip, chip_raised, on_chip, start_table};
ghost use Rattle.xom_versions.specs.ChipLaw.{chip_in_the_open, chip_law};

use crate::{Torn, VersionStore};
use line_ram::LineRam;
use std::alloc::Global;
use std::marker::Model;
use xom_base::NoMemory;
use xom_journal::Journal;

/// How many lines of 32 bytes a guest's private memory has.
const LINES: usize = 32768;

/// Versions on chip: a table of all the numbers. They are never torn, nothing is hashed, and RAM isn't
/// touched. `build` costs one pass over the table, the other calls constant time.
#[derive(Drop)]
pub struct ChipVersions {
    numbers: Vec<u64>,
}

impl Model for ChipVersions {
    ghost use Rattle.std.specs.Prelude.{List, ℕ, length, ◌≡◌};
    ghost use Rattle.xom_versions.specs.Store.{line_limit};

    ghost Value = { List ℕ };

    ghost view = { λ store. store.numbers.items };

    ghost invariant = { λ store. length store.numbers.items ≡ line_limit };
}

impl VersionStore for ChipVersions {
    ghost as_store = { on_chip };

    ghost versions = { chip };

    ghost Stands = { ChipStands };

    ghost raised_ram = { chip_raised };

    fn blank(alloc: Global) -> Result<ChipVersions, NoMemory> {
        let numbers = new_table(alloc, LINES)?;
        Ok(ChipVersions { numbers })
    }

    fn build(&mut self, area: u32, lines: u32, ram: &mut LineRam, journal: &mut Journal) {
        start_over(&mut self.numbers, lines as usize);
    }

    fn version(&self, line: u32, ram: &LineRam, journal: &mut Journal) -> Result<u64, Torn> {
        Ok(self.numbers[line as usize])
    }

    fn raise(&mut self, line: u32, ram: &mut LineRam, journal: &mut Journal) -> Result<u64, Torn> {
        let number = self.numbers[line as usize].wrapping_add(1);
        self.numbers[line as usize] = number;
        Ok(number)
    }

    ghost law = { chip_law };

    ghost in_the_open = { chip_in_the_open };
}

#[tactic(auto, unfolding(crate::specs::Chip::start_table))]
fn new_table(alloc: Global, count: usize) -> Result<Vec<u64>, NoMemory>
    ensures numbers { IfOk result (λ numbers. numbers.items ≡ start_table count 0) }
    ensures length { IfOk result (λ numbers. length numbers.items ≡ count) }
{
    Ok(vec![in alloc; 0u64; count]?)
}

#[tactic(auto, unfolding(crate::specs::Chip::start_table))]
fn start_over(numbers: &mut [u64], lines: usize)
    requires { lines ≤ length numbers.old }
    ensures { numbers.new ≡ start_table (length numbers.old) lines }
{
    numbers[..lines].fill(1);
    numbers[lines..].fill(0);
}
