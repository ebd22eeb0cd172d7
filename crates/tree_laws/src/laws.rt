ghost use Rattle.replay_tree.specs.Calls.{top_level, tree};
ghost use Rattle.replay_tree.specs.Tree.{TreeStands};
ghost use Rattle.headline_law.specs.Headline.{KeptIsJudgedWell, KernelsAreJudgedWell, RunsAreJudgedWell};
ghost use Rattle.journal_laws.specs.RulesOfRecord.{StoresKeepRules};
ghost use Rattle.journal_laws.specs.RulesKept.{EventsKeepRules, JournalsAreReadAgain, JournalsKeepRules, KernelsAreReadAgain, StartKeepsRules};

/// Of a machine whose versions are a tree: where the report of its journal names no forged entry and
/// no collision, every guest follows its owner's program; and what it recorded is read again from its
/// print, since each text that the tree hashes is a level and a block of at most 256 bytes.
pub fn the_tree_serves_the_whole_machine()
    ensures held { KeptIsJudgedWell (TreeStands top_level) }
    ensures runs { RunsAreJudgedWell tree (TreeStands top_level) }
    ensures kernels { KernelsAreJudgedWell tree (TreeStands top_level) }
    ensures texts { StoresKeepRules tree }
    ensures at_start { StartKeepsRules tree }
    ensures kept { EventsKeepRules tree (TreeStands top_level) }
    ensures always { JournalsKeepRules tree (TreeStands top_level) }
    ensures read_again { JournalsAreReadAgain tree (TreeStands top_level) }
    ensures kernels_read_again { KernelsAreReadAgain tree (TreeStands top_level) }
{}
