ghost use Rattle.std.specs.Prelude.{◌≡◌, ◌<◌};
ghost use Rattle.mips_effect.specs.Effects.{AreCells};
ghost use Rattle.mips_plain.specs.Inside.{IsInside, IsLent};
ghost use Rattle.xom_model.specs.Guest.{mask_after as mask_after_of, mask_released, mask_written};

use session_table::{with_cell, without_cell};
use xom_base::{Released, Step, Writes};

/// The cells that a guest owns after a step.
pub fn mask_after(mask: u64, step: &Step) -> u64
    requires { IsInside step.now }
    ensures { result ≡ mask_after_of mask step.now }
{
    released(written(mask, step.writes), step.released)
}

/// A written cell is owned.
fn written(mask: u64, writes: Writes) -> u64
    requires { AreCells writes }
    ensures { result ≡ mask_written mask writes }
{
    match writes {
        Writes::Nothing => mask,
        Writes::One { reg, value: _value } => with_cell(mask, reg),
        Writes::Pair { hi: _hi, lo: _lo } => with_cell(with_cell(mask, 32), 33),
    }
}

/// A released cell isn't owned any more.
fn released(mask: u64, released: Released) -> u64
    requires { IsLent released }
    ensures { result ≡ mask_released mask released }
{
    match released {
        Released::Cell { reg, value: _value } => without_cell(mask, reg),
        _ => mask,
    }
}
