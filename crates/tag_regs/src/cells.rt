ghost use Rattle.std.specs.Prelude.{◌≡◌, ◌≤◌, ◌<◌};
ghost use Rattle.tag_regs.specs.TaggedCells.{all_empty, cell_at, cells_after_scrub, scrubbed_cell, with_cell};

use crate::Cell;
use std::marker::Model;

/// The cells $1 to $31, HI as 32 and LO as 33. $0 is no cell.
#[derive(Drop)]
pub struct Cells {
    cells: [Cell; 34],
}

impl Model for Cells {
    ghost use Rattle.std.specs.Prelude.{List, length, ◌≡◌};
    ghost use Rattle.tag_regs.specs.declared.cell.Cell.{Cell};

    ghost Value = { List Cell };

    ghost view = { λ c. c.cells };

    ghost invariant = { λ c. length c.cells ≡ 34 };
}

impl Cells {
    /// All of them zero, of the null compartment.
    pub fn new() -> Cells
        ensures { result ≡ all_empty }
    {
        Cells { cells: no_cells() }
    }

    /// The value and the tag of a register, 1 to 33.
    pub fn get(&self, reg: u8) -> (u32, u8)
        requires some { 1 ≤ reg }
        requires known { reg < 34 }
        ensures { result ≡ ((cell_at self.now reg).value, (cell_at self.now reg).tag) }
    {
        let cell = self.cells[usize::from(reg)];
        (cell.value, cell.tag)
    }

    /// Sets the cell of a register, 1 to 33, with a tag of at most 16.
    pub fn set(&mut self, reg: u8, value: u32, tag: u8)
        requires some { 1 ≤ reg }
        requires known { reg < 34 }
        requires compartment { tag ≤ 16 }
        ensures { self.new ≡ with_cell self.old reg value tag }
    {
        self.cells[usize::from(reg)] = Cell { value, tag };
    }

    /// Empties the cells of a slot. Walks all of them.
    pub fn scrub(&mut self, slot: u8)
        ensures { self.new ≡ cells_after_scrub slot self.old }
    {
        scrub_all(&mut self.cells, slot);
    }
}

#[tactic(auto, unfolding(crate::specs::TaggedCells::all_empty))]
fn no_cells() -> [Cell; 34]
    ensures { result ≡ all_empty }
{
    [Cell::EMPTY; 34]
}

#[tactic(auto, using(std::proofs::lemmas::List::Edits::map_over_more))]
fn scrub_all(cells: &mut [Cell], slot: u8)
    ensures { cells.new ≡ cells_after_scrub slot cells.old }
{
    for cell in cells.iter_mut() {
        *cell = without(slot, *cell);
    }
}

fn without(slot: u8, cell: Cell) -> Cell
    ensures { result ≡ scrubbed_cell slot cell }
{
    if cell.tag == slot { Cell::EMPTY } else { cell }
}
