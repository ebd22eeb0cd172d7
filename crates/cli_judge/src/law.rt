ghost use Rattle.cli_judge.specs.Laws.{RowsMayStand, TextsAreRead};

/// A law and no code: the entry of each line of a journal's text may be fed to a judge that was fed those
/// of the lines before.
#[tactic(auto, using(crate::proofs::Numbered::rows_may_stand))]
pub fn rows_may_stand()
    ensures { RowsMayStand }
{}

/// A law and no code: what the command takes a journal's text for is what the grammar of journals says.
#[tactic(auto, using(crate::proofs::Grammar::texts_are_read))]
pub fn texts_are_read()
    ensures { TextsAreRead }
{}
