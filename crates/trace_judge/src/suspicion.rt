ghost use Rattle.std.specs.Prelude.{◌≡◌};
ghost use Rattle.std.specs.List.{list_any};
ghost use Rattle.trace_judge.specs.Suspicion.{is_doubted as is_doubted_by, is_stop as is_stop_by, is_suspect as is_suspect_by};

use crate::{GuestLine, Report, Verdict};
use xom_base::Entry;

/// Whether a report names a forged entry, a collision, or a guest that departs or has no owner.
pub fn is_suspect(report: &Report) -> bool
    ensures { result ≡ is_suspect_by report.now }
{
    report.forged.is_some() || report.collision.is_some() || has_doubt(report.guests.as_slice())
}

fn has_doubt(lines: &[GuestLine]) -> bool
    ensures { result ≡ list_any (λ line. is_doubted_by line.verdict) lines.now }
{
    lines.iter().any(|line| is_doubted(line.verdict))
}

fn is_doubted(verdict: Verdict) -> bool
    ensures { result ≡ is_doubted_by verdict }
{
    !matches!(verdict, Verdict::Follows(_))
}

/// Whether an entry says that a guest was stopped.
pub fn is_stop(entry: &Entry) -> bool
    ensures { result ≡ is_stop_by entry.now }
{
    matches!(entry, Entry::Stop { .. })
}
