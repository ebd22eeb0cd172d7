use replay_tree::TreeVersions;
use xom_machine::Machine;

/// The machine that the program runs: the versions of private lines stand in hostile RAM, in a tree of
/// hashes for each guest, of which the root alone is on chip.
pub type ShippedMachine = Machine<TreeVersions>;
