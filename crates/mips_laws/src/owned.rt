ghost use Rattle.mips_laws.specs.Owned.{OwnedCellsAreActedOn};

/// The effect of an instruction of MIPS I, where each cell that it reads has a value, is what the
/// laws of this crate speak of, in a guest and in null code.
#[tactic(auto, using(crate::proofs::Owning::owned_cells_are_acted_on))]
pub fn owned_cells_are_acted_on()
    ensures { OwnedCellsAreActedOn }
{}
