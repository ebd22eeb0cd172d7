ghost use Rattle.std.specs.Prelude.{◌≡◌};
ghost use Rattle.std.specs.List.{list_any};
ghost use Rattle.trace_judge.specs.Suspicion.{is_stop as is_stop_by};

use xom_journal::Journal;

/// Whether a guest was stopped. It goes through the entries up to the first Stop, and copies none.
pub fn has_stop(journal: &Journal) -> bool
    ensures { result ≡ list_any is_stop_by journal.now.entries }
{
    for i in 0..journal.len() {
        if journal.stop_rule_at(i).is_some() {
            return true;
        }
    }
    false
}
