ghost use Rattle.std.specs.Prelude.{◌≡◌, ◌<◌, ◌↔◌, IsTrue};
ghost use Rattle.session_table.specs.Masks.{IsOwned, mask_with_cell as with_cell_of, without_cell as without_cell_of};

/// Whether a set of cells has a cell, 0 to 63. Bit r of the set is cell r.
pub fn owns(mask: u64, reg: u8) -> bool
    requires { reg < 64 }
    ensures { IsTrue result ↔ IsOwned mask reg }
{
    (mask >> reg) & 1 == 1
}

/// The set with a cell, 0 to 63.
#[tactic(auto, unfolding(crate::specs::Masks::mask_with_cell))]
pub fn with_cell(mask: u64, reg: u8) -> u64
    requires { reg < 64 }
    ensures { result ≡ with_cell_of mask reg }
{
    mask | (1 << reg)
}

/// The set without a cell, 0 to 63.
#[tactic(auto, unfolding(crate::specs::Masks::without_cell))]
pub fn without_cell(mask: u64, reg: u8) -> u64
    requires { reg < 64 }
    ensures { result ≡ without_cell_of mask reg }
{
    mask & !(1 << reg)
}
