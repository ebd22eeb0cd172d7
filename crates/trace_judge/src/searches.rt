ghost use Rattle.std.specs.Prelude.{◌≡◌, ◌≤◌, ◌<◌, ◌+◌, ◌^◌, ◌++◌, [], ◌∷◌, List, ℕ, length, OnOk, OnErr, IfOk};
ghost use Rattle.xom_base.specs.declared.entry.Entry.{Entry as AnEntry};
ghost use Rattle.journal_findings.specs.Findings.{first_collision, first_forgery, sealed_by};
ghost use Rattle.xom_base.specs.declared.entry.Entry.TheVariants.{Hash as AHash};
ghost use Rattle.trace_judge.specs.HashSearch.{IsHash};

use crate::collisions::Collisions;
use crate::forgeries::Forgeries;
use crate::sealings::Sealings;
use crate::secrets::fingerprint_secret;
use std::alloc::Global;
use xom_base::{Entry, Key256, NoMemory};
use xom_owners::OwnerList;

/// The searches for forgeries and for collisions, over one count of entries.
#[derive(Drop)]
pub struct Searches<'a> {
    /// What owners sealed.
    pub sealings: Sealings<'a>,
    /// How many entries were fed.
    pub count: u64,
    /// The search for forgeries.
    pub forgeries: Forgeries,
    /// The search for collisions.
    pub collisions: Collisions,
}

impl<'a> Searches<'a> {
    ghost use Rattle.trace_judge.specs.Judging.{HasSearched, JudgeKeeps};

    /// Nothing was fed.
    pub fn new(
        alloc: Global,
        machine: &Key256,
        owners: &'a OwnerList,
    ) -> Result<Searches<'a>, NoMemory>
        ensures { IfOk result (λ s. HasSearched (sealed_by machine.now owners.now) s []) }
    {
        let sealings = Sealings::new(alloc, machine, owners)?;
        let secret = fingerprint_secret(machine);
        Ok(Searches {
            sealings,
            count: 0,
            forgeries: Forgeries::new(alloc, &secret),
            collisions: Collisions::new(alloc, &secret),
        })
    }

    /// Takes the next entry. Costs a look-up in a map of earlier Seals or Hashes at most.
    pub fn feed(&mut self, entry: &Entry) -> Result<(), NoMemory>
        ensures ok { OnOk result ((sealed : List (List ℕ × List ℕ)) → (es : List AnEntry) → length es + 1 < 2 ^ 64 → HasSearched sealed self.old es → HasSearched sealed self.new (es ++ entry.now ∷ [])) }
        ensures err { OnErr result ((sealed : List (List ℕ × List ℕ)) → (es : List AnEntry) → HasSearched sealed self.old es → HasSearched sealed self.new es) }
        ensures only { OnErr result (JudgeKeeps entry.now) }
    {
        match entry {
            Entry::Hash { preimage, digest } => {
                let _length = preimage.len();
                self.feed_hash(preimage.bytes(), digest)
            }
            _ => self.feed_other(entry),
        }
    }

    /// Takes the next entry, a Hash of this text. The search for forgeries has nothing to look at.
    pub fn feed_hash(&mut self, text: &[u8], digest: &[u8; 32]) -> Result<(), NoMemory>
        requires { length text.now ≤ 260 }
        ensures ok { OnOk result ((sealed : List (List ℕ × List ℕ)) → (es : List AnEntry) → length es + 1 < 2 ^ 64 → HasSearched sealed self.old es → HasSearched sealed self.new (es ++ AHash text.now digest.now ∷ [])) }
        ensures err { OnErr result ((sealed : List (List ℕ × List ℕ)) → (es : List AnEntry) → HasSearched sealed self.old es → HasSearched sealed self.new es) }
    {
        let number = self.count.wrapping_add(1);
        match self.collisions.feed(number, text, digest) {
            Ok(()) => {
                self.count = number;
                Ok(())
            }
            Err(e) => Err(e),
        }
    }

    /// Takes the next entry, which is no Hash. The search for collisions has nothing to look at.
    fn feed_other(&mut self, entry: &Entry) -> Result<(), NoMemory>
        requires { IsHash entry.now → ⊥ }
        ensures ok { OnOk result ((sealed : List (List ℕ × List ℕ)) → (es : List AnEntry) → length es + 1 < 2 ^ 64 → HasSearched sealed self.old es → HasSearched sealed self.new (es ++ entry.now ∷ [])) }
        ensures err { OnErr result ((sealed : List (List ℕ × List ℕ)) → (es : List AnEntry) → HasSearched sealed self.old es → HasSearched sealed self.new es) }
        ensures only { OnErr result (JudgeKeeps entry.now) }
    {
        let number = self.count.wrapping_add(1);
        match self.forgeries.feed(&self.sealings, number, entry) {
            Ok(()) => {
                self.count = number;
                Ok(())
            }
            Err(e) => Err(e),
        }
    }

    /// The first forged Accept, as the lists have it.
    pub fn forged(&self) -> Option<u64>
        ensures { (sealed : List (List ℕ × List ℕ)) → (es : List AnEntry) → HasSearched sealed self.now es → result ≡ first_forgery sealed es }
    {
        self.forgeries.found()
    }

    /// The first collision, as the lists have it.
    pub fn collision(&self) -> Option<(u64, u64)>
        ensures { (sealed : List (List ℕ × List ℕ)) → (es : List AnEntry) → HasSearched sealed self.now es → result ≡ first_collision es }
    {
        self.collisions.found()
    }
}
