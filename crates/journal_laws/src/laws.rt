ghost use Rattle.xom_versions.specs.Chip.{ChipStands, chip};
ghost use Rattle.journal_laws.specs.RulesOfRecord.{StoresKeepRules};
ghost use Rattle.journal_laws.specs.RulesKept.{EventsKeepRules, JournalsAreReadAgain, JournalsKeepRules, KernelsAreReadAgain, StartKeepsRules};

/// At every moment between events the machine's journal keeps the rules of its text: it does so at
/// power-on, and each event keeps them, whatever the guests, the kernel and the bus do, and also
/// where the journal names a forgery. Hence what a machine has recorded can be printed at any time,
/// and the text is read again as the same entries. Versions on chip hash nothing. The proofs are of
/// every kind of version store; the clauses speak of versions on chip.
pub fn journals_keep_their_rules()
    ensures chip { StoresKeepRules chip }
    ensures at_start { StartKeepsRules chip }
    ensures kept { EventsKeepRules chip ChipStands }
    ensures always { JournalsKeepRules chip ChipStands }
    ensures read_again { JournalsAreReadAgain chip ChipStands }
    ensures kernels { KernelsAreReadAgain chip ChipStands }
{}
