ghost use Rattle.xom_versions.specs.Chip.{ChipStands, chip};
ghost use Rattle.headline_law.specs.Headline.{KeptIsJudgedWell, KernelsAreJudgedWell, RunsAreJudgedWell};

/// Where the report of a machine's journal names no forged entry and no collision, every line of it
/// says that its guest's steps are those of the owner's program run alone. So it is of each machine
/// that keeps what it should while its journal is honest, hence after whatever events from power-on,
/// and at the end of each run under a kernel. The proofs are of every kind of version store; the
/// clauses speak of versions on chip.
pub fn every_guest_follows()
    ensures kept { KeptIsJudgedWell ChipStands }
    ensures runs { RunsAreJudgedWell chip ChipStands }
    ensures kernels { KernelsAreJudgedWell chip ChipStands }
{}
