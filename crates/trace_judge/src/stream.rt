ghost use Rattle.std.specs.Prelude.{◌≡◌, ◌≤◌, ◌<◌, ◌+◌, ◌^◌, ◌++◌, [], ◌∷◌, List, ℕ, length, true, OnOk, OnErr, IfOk};
ghost use Rattle.xom_base.specs.declared.entry.Entry.{Entry as AnEntry};
ghost use Rattle.xom_base.specs.declared.entry.Entry.TheVariants.{Hash as AHash};
ghost use Rattle.xom_base.specs.declared.key.Key256.{Key256 as AKey};
ghost use Rattle.xom_owners.specs.declared.owner.Owner.{Owner};
ghost use Rattle.journal_findings.specs.Findings.{sealed_by};
ghost use Rattle.trace_judge.specs.GuestWatch.{IsFed, IsInstall};
ghost use Rattle.trace_judge.specs.Judgement.{judgement};
ghost use Rattle.trace_judge.specs.Numbers.{install_count, may_stand as may_stand_by};

use crate::Report;
use crate::guests::Guests;
use crate::quiet::{search, watch};
use crate::searches::Searches;
use std::alloc::Global;
use xom_base::{Entry, Key256, NoMemory};
use xom_owners::OwnerList;

/// A judge of a journal that comes entry by entry. It keeps a plain machine for each install that
/// goes on, and what was sealed and hashed, but no list of entries: a journal of any number of
/// steps is judged in the memory of its other entries.
#[derive(Drop)]
pub struct Judge<'a> {
    owners: &'a OwnerList,
    alloc: Global,
    searches: Searches<'a>,
    guests: Guests,
}

impl<'a> Judge<'a> {
    ghost use Rattle.trace_judge.specs.Judging.{HasJudged, HasSearched, JudgeKeeps, WantsMemory};

    /// A judge by these owners, whose images were sealed for the machine of this key. Nothing was fed.
    pub fn new(
        alloc: Global,
        machine: &Key256,
        owners: &'a OwnerList,
    ) -> Result<Judge<'a>, NoMemory>
        ensures { IfOk result (λ judge. HasJudged machine.now owners.now judge []) }
    {
        Ok(Judge {
            owners,
            alloc,
            searches: Searches::new(alloc, machine, owners)?,
            guests: Guests::new(alloc),
        })
    }

    /// Whether an entry may stand next by the rule of install numbers: the first is 1, each is one
    /// more than the last, and steps, traps, stops and kills are of installs that came.
    pub fn may_feed(&self, entry: &Entry) -> bool
        ensures { (machine : AKey) → (owners : List Owner) → (es : List AnEntry) → HasJudged machine owners self.now es → result ≡ may_stand_by (install_count es) entry.now }
    {
        self.guests.may_stand(entry)
    }

    /// Takes the next entry, which may stand there. Memory is wanted for an Install, a Seal or a Hash
    /// alone. An Install takes room for the guest's private memory, and touches of it what the image
    /// fills. Each entry costs at most a look-up among the Seals or Hashes before it.
    pub fn feed(&mut self, entry: &Entry) -> Result<(), NoMemory>
        // One more entry, which may stand behind fewer than 2^64 - 1 others.
        ensures ok { OnOk result ((machine : AKey) → (owners : List Owner) → (es : List AnEntry) → length es + 1 < 2 ^ 64 → may_stand_by (install_count es) entry.now ≡ true → HasJudged machine owners self.old es → HasJudged machine owners self.new (es ++ entry.now ∷ [])) }
        ensures err { OnErr result ((machine : AKey) → (owners : List Owner) → (es : List AnEntry) → HasJudged machine owners self.old es → HasJudged machine owners self.new es) }
        ensures only { OnErr result (WantsMemory entry.now) }
    {
        match self.look(entry) {
            Ok(()) => Ok(()),
            Err(e) => Err(e),
        }
    }

    /// Takes the next entry, a Hash of this text. No guest has anything to look at.
    pub(crate) fn feed_hash(&mut self, text: &[u8], digest: &[u8; 32]) -> Result<(), NoMemory>
        requires { length text.now ≤ 260 }
        ensures { OnOk result ((machine : AKey) → (owners : List Owner) → (es : List AnEntry) → length es + 1 < 2 ^ 64 → HasJudged machine owners self.old es → HasJudged machine owners self.new (es ++ AHash text.now digest.now ∷ [])) }
    {
        match self.searches.feed_hash(text, digest) {
            Ok(()) => Ok(()),
            Err(e) => Err(e),
        }
    }

    /// Lets each part take the entry: first the one that may want memory.
    fn look(&mut self, entry: &Entry) -> Result<(), NoMemory>
        ensures owners { self.new.owners.now ≡ self.old.owners.now }
        ensures searches { OnOk result ((sealed : List (List ℕ × List ℕ)) → (es : List AnEntry) → length es + 1 < 2 ^ 64 → HasSearched sealed self.old.searches es → HasSearched sealed self.new.searches (es ++ entry.now ∷ [])) }
        ensures guests { OnOk result ((es : List AnEntry) → length es + 1 < 2 ^ 64 → may_stand_by (install_count es) entry.now ≡ true → IsFed self.old.owners.now self.old.guests.items.items es → IsFed self.old.owners.now self.new.guests.items.items (es ++ entry.now ∷ [])) }
        ensures searches_stay { OnErr result ((sealed : List (List ℕ × List ℕ)) → (es : List AnEntry) → HasSearched sealed self.old.searches es → HasSearched sealed self.new.searches es) }
        ensures guests_stay { OnErr result (self.new.guests.items.items ≡ self.old.guests.items.items) }
        ensures only { OnErr result (WantsMemory entry.now) }
    {
        match entry {
            Entry::Install { .. } => match self.guests.feed(self.alloc, self.owners, entry) {
                Ok(()) => {
                    search(&mut self.searches, entry);
                    Ok(())
                }
                Err(e) => Err(e),
            },
            _ => match self.searches.feed(entry) {
                Ok(()) => {
                    watch(&mut self.guests, self.alloc, self.owners, entry);
                    Ok(())
                }
                Err(e) => Err(e),
            },
        }
    }

    /// What the entries so far show.
    pub fn report(&self) -> Result<Report, NoMemory>
        ensures { IfOk result (λ report. (machine : AKey) → (owners : List Owner) → (es : List AnEntry) → HasJudged machine owners self.now es → report ≡ judgement machine owners es) }
    {
        let guests = self.guests.lines(self.alloc)?;
        Ok(Report {
            guests,
            forged: self.searches.forged(),
            collision: self.searches.collision(),
        })
    }
}
