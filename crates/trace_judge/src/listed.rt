ghost use Rattle.std.specs.Prelude.{◌≡◌, IfOk, OnOk};
ghost use Rattle.std.specs.List.{filter_map};
ghost use Rattle.xom_owners.specs.Owners.{owner_of as first_owner};
ghost use Rattle.mips_plain.specs.Follows.{verdict_from};
ghost use Rattle.trace_judge.specs.Judgement.{guest_lines as lines_of, verdict_by};
ghost use Rattle.trace_judge.specs.Trails.{line_by, told_of_install};
ghost use Rattle.trace_judge.specs.Verdicts.{AreVerdicts};

use crate::steps::does;
use crate::trails::{Trails, trails_of};
use crate::verdicts::Verdicts;
use crate::{GuestLine, GuestLineList, Verdict};
use mips_plain::Plain;
use std::alloc::Global;
use xom_base::{Entry, ImageId, NoMemory, Step};
use xom_owners::{OwnerList, owner_of};

/// A line for each Install entry, in their order, of entries that keep no rules. Goes over them twice, with
/// a look-up among the install numbers for each. The steps of a number are followed once for each owner's
/// id that it is installed with, however often.
pub fn guest_lines(
    alloc: Global,
    owners: &OwnerList,
    entries: &[Entry],
) -> Result<GuestLineList, NoMemory>
    ensures { IfOk result (λ lines. lines ≡ lines_of owners.now entries.now) }
{
    let trails = trails_of(alloc, entries)?;
    lines_by(alloc, owners, &trails, entries)
}

/// The lines of the Install entries, by what is told of each install.
fn lines_by(
    alloc: Global,
    owners: &OwnerList,
    trails: &Trails,
    entries: &[Entry],
) -> Result<GuestLineList, NoMemory>
    ensures { IfOk result (λ lines. lines ≡ filter_map (line_by owners.now (told_of_install trails.now)) entries.now) }
{
    let mut found = Verdicts::new(alloc);
    let mut lines = GuestLineList::new(alloc);
    for entry in entries {
        if let Some(line) = line_of(alloc, owners, trails, &mut found, entry)? {
            lines.push(line)?;
        }
    }
    Ok(lines)
}

/// The line of an entry, where it is an Install.
fn line_of(
    alloc: Global,
    owners: &OwnerList,
    trails: &Trails,
    found: &mut Verdicts,
    entry: &Entry,
) -> Result<Option<GuestLine>, NoMemory>
    requires { AreVerdicts owners.now (told_of_install trails.now) found.old }
    ensures line { IfOk result (λ line. line ≡ line_by owners.now (told_of_install trails.now) entry.now) }
    ensures found { OnOk result (AreVerdicts owners.now (told_of_install trails.now) found.new) }
{
    match *entry {
        Entry::Install {
            install,
            slot,
            id,
            ..
        } => Ok(Some(GuestLine {
            install,
            slot,
            id,
            verdict: verdict(alloc, owners, trails, found, install, &id)?,
            end: trails.end(install),
        })),
        _ => Ok(None),
    }
}

/// The verdict on an install, as it was found before, or else by its steps.
#[tactic(auto, using(crate::proofs::VerdictLaws::verdicts_more))]
fn verdict(
    alloc: Global,
    owners: &OwnerList,
    trails: &Trails,
    found: &mut Verdicts,
    install: u64,
    id: &ImageId,
) -> Result<Verdict, NoMemory>
    requires { AreVerdicts owners.now (told_of_install trails.now) found.old }
    ensures value { IfOk result (λ v. v ≡ verdict_by (first_owner owners.now id.now) (told_of_install trails.now install).steps) }
    ensures found { OnOk result (AreVerdicts owners.now (told_of_install trails.now) found.new) }
{
    if let Some(verdict) = found.get(install, id) {
        return Ok(verdict);
    }
    let verdict = verdict_on(alloc, owners, id, trails.steps(install))?;
    found.insert(install, id, verdict)?;
    Ok(verdict)
}

/// Steps beside the program of the first owner of an id.
fn verdict_on(
    alloc: Global,
    owners: &OwnerList,
    id: &ImageId,
    steps: &[Step],
) -> Result<Verdict, NoMemory>
    ensures { IfOk result (λ v. v ≡ verdict_by (first_owner owners.now id.now) steps.now) }
{
    match owner_of(owners, id) {
        None => Ok(Verdict::NoOwner),
        Some(owner) => Ok(follow(Plain::new(alloc, &owner.plain)?, steps)),
    }
}

/// Steps beside a plain machine, from its state on.
fn follow(mut plain: Plain, steps: &[Step]) -> Verdict
    ensures { result ≡ verdict_from plain steps.now 0 }
{
    let mut count = 0;
    for step in steps {
        count += 1;
        if !does(&mut plain, step) {
            return Verdict::Departs(count);
        }
    }
    Verdict::Follows(count)
}
