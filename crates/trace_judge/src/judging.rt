ghost use Rattle.std.specs.Prelude.{◌≡◌, ◌<◌, ◌+◌, ◌^◌, List, IfOk, true, take};
ghost use Rattle.xom_base.specs.declared.key.Key256.{Key256 as AKey};
ghost use Rattle.xom_owners.specs.declared.owner.Owner.{Owner};
ghost use Rattle.trace_judge.specs.Judging.{HasJudged};
ghost use Rattle.journal_findings.specs.Findings.{first_collision, first_forgery, sealed_by};
ghost use Rattle.trace_judge.specs.Judgement.{judgement};

use crate::listed::guest_lines;
use crate::searches::Searches;
use crate::{Judge, Report};
use std::alloc::Global;
use xom_base::{Entry, Key256, NoMemory};
use xom_journal::Journal;
use xom_owners::OwnerList;

/// What the two searches find.
#[derive(Clone, Copy)]
struct Findings {
    forged: Option<u64>,
    collision: Option<(u64, u64)>,
}

/// Judges a journal by the owners' programs, which were sealed for the machine of this key. Takes any
/// journal. One that keeps the rule of install numbers costs constant time an entry, beside a
/// look-up among earlier Seals or Hashes. Another one is copied, and costs a look-up among its install
/// numbers an entry besides; where a number is installed several times, its steps are followed once for
/// each owner's id among those Installs.
pub fn judge(
    alloc: Global,
    machine: &Key256,
    owners: &OwnerList,
    journal: &Journal,
) -> Result<Report, NoMemory>
    ensures { IfOk result (λ report. report ≡ judgement machine.now owners.now journal.now.entries) }
{
    let mut judge = Judge::new(alloc, machine, owners)?;
    for i in 0..journal.len() {
        if !feed_at(&mut judge, journal, i)? {
            return judge_listed(alloc, machine, owners, journal);
        }
    }
    judge.report()
}

/// Feeds a judge the entry at a place, if there is one: whether it may stand there. A Hash is looked at
/// where it lies in the journal.
fn feed_at(judge: &mut Judge, journal: &Journal, i: u64) -> Result<bool, NoMemory>
    requires { i + 1 < 2 ^ 64 }
    ensures { IfOk result (λ fed. fed ≡ true → (m : AKey) → (os : List Owner) → HasJudged m os judge.old (take i journal.now.entries) → HasJudged m os judge.new (take (i + 1) journal.now.entries)) }
{
    if let Some(hash) = journal.hash_at(i) {
        judge.feed_hash(hash.text, hash.digest)?;
        return Ok(true);
    }
    let Some(entry) = journal.get(i) else {
        return Ok(true);
    };
    if !judge.may_feed(&entry) {
        return Ok(false);
    }
    judge.feed(&entry)?;
    Ok(true)
}

/// Judges a journal off the rule of install numbers.
fn judge_listed(
    alloc: Global,
    machine: &Key256,
    owners: &OwnerList,
    journal: &Journal,
) -> Result<Report, NoMemory>
    ensures { IfOk result (λ report. report ≡ judgement machine.now owners.now journal.now.entries) }
{
    let entries = entries_of(alloc, journal)?;
    let found = search(alloc, machine, owners, &entries)?;
    let guests = guest_lines(alloc, owners, &entries)?;
    Ok(Report {
        guests,
        forged: found.forged,
        collision: found.collision,
    })
}

/// The first forged Accept and the first collision among entries.
fn search(
    alloc: Global,
    machine: &Key256,
    owners: &OwnerList,
    entries: &[Entry],
) -> Result<Findings, NoMemory>
    ensures { IfOk result (λ found. found ≡ record { forged = first_forgery (sealed_by machine.now owners.now) entries.now; collision = first_collision entries.now }) }
{
    let mut searches = Searches::new(alloc, machine, owners)?;
    for entry in entries {
        searches.feed(entry)?;
    }
    Ok(Findings {
        forged: searches.forged(),
        collision: searches.collision(),
    })
}

/// A journal's entries, one behind the other.
#[tactic(auto, using(crate::proofs::Takes::take_got, crate::proofs::Takes::take_none))]
fn entries_of(alloc: Global, journal: &Journal) -> Result<Vec<Entry>, NoMemory>
    ensures { IfOk result (λ entries. entries.items ≡ journal.now.entries) }
{
    let mut entries = Vec::with_capacity(alloc, journal.len() as usize)?;
    for i in 0..journal.len() {
        if let Some(entry) = journal.get(i) {
            entries.push(entry)?;
        }
    }
    Ok(entries)
}
