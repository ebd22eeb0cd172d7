ghost use Rattle.xom_cli.specs.Laws.{HaveOneOutcome};

/// A law and no code: over files that hold the same, words print one text, write one file and end with
/// one status. So what the promises of the top call say of what words come to, they say of one thing.
#[tactic(auto, using(crate::proofs::OneOutcome::one_outcome))]
pub fn words_have_one_outcome()
    ensures { HaveOneOutcome }
{}
