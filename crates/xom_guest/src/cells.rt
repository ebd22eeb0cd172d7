ghost use Rattle.std.specs.Prelude.{◌≡◌, ◌≤◌, ◌<◌};
ghost use Rattle.mips_effect.specs.Effects.{AreCells, IsInRange};
ghost use Rattle.mips_plain.specs.Inside.{IsInside, IsLent};
ghost use Rattle.xom_model.specs.Guest.{cells_after_step, open_value as open_value_of, received_by, seen_as as seen_as_of, seen_by as seen_by_of, with_release, with_writes};

use crate::memory::null_word;
use line_ram::LineRam;
use mips_effect::{Seen, Wish};
use tag_regs::Cells;
use xom_base::{Released, Step, Writes};

/// What a slot's guest sees in a cell, 0 to 33: $0 is zero.
pub fn seen_by(slot: u8, cells: &Cells, reg: u8) -> Seen
    requires { reg < 34 }
    ensures { result ≡ seen_by_of slot cells.now reg }
{
    if reg == 0 {
        return Seen::Value(0);
    }
    let (value, tag) = cells.get(reg);
    seen_as(slot, value, tag)
}

/// The value where the cell has the slot's tag.
fn seen_as(slot: u8, value: u32, tag: u8) -> Seen
    ensures { result ≡ seen_as_of slot (record { value = value; tag = tag }) }
{
    if tag == slot {
        Seen::Value(value)
    } else {
        Seen::Foreign
    }
}

/// What comes from outside for a wish: 0 where nothing is received.
pub fn received(cells: &Cells, ram: &LineRam, wish: Wish) -> u32
    requires { IsInRange wish }
    ensures { result ≡ received_by cells.now ram.now wish }
{
    match wish {
        Wish::Receive { reg: _reg, from } => {
            let (value, tag) = cells.get(from);
            open_value(value, tag)
        }
        Wish::NullLoad { reg: _reg, address } => null_word(ram, address),
        _ => 0,
    }
}

/// The value of a cell of the null compartment, and 0 of any other's.
fn open_value(value: u32, tag: u8) -> u32
    ensures { result ≡ open_value_of (record { value = value; tag = tag }) }
{
    if tag == 0 { value } else { 0 }
}

/// Carries out on the cells what a step of a slot's guest wrote and released.
pub fn carry_out(slot: u8, cells: &mut Cells, step: &Step)
    requires known { slot ≤ 16 }
    requires inside { IsInside step.now }
    ensures { cells.new ≡ cells_after_step slot cells.old step.now }
{
    write(slot, cells, step.writes);
    release(cells, step.released);
}

/// A written cell gets the slot's tag.
fn write(slot: u8, cells: &mut Cells, writes: Writes)
    requires known { slot ≤ 16 }
    requires cells { AreCells writes }
    ensures { cells.new ≡ with_writes slot cells.old writes }
{
    match writes {
        Writes::Nothing => {}
        Writes::One { reg, value } => cells.set(reg, value, slot),
        Writes::Pair { hi, lo } => {
            cells.set(32, hi, slot);
            cells.set(33, lo, slot);
        }
    }
}

/// A released cell is of the null compartment, and keeps its value.
fn release(cells: &mut Cells, released: Released)
    requires { IsLent released }
    ensures { cells.new ≡ with_release cells.old released }
{
    if let Released::Cell { reg, value } = released {
        cells.set(reg, value, 0);
    }
}
