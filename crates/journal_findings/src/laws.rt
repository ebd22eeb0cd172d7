ghost use Rattle.journal_findings.specs.Laws.{CollisionsStay, ForgeriesStay};

/// A law and no code: what a journal names as forged, or as a collision, each longer journal names.
#[tactic(auto, using(crate::proofs::Found::forgeries_stay, crate::proofs::Found::collisions_stay))]
pub fn findings_stay()
    ensures forgeries { ForgeriesStay }
    ensures collisions { CollisionsStay }
{}
