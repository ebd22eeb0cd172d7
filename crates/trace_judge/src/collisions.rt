ghost use Rattle.std.specs.Prelude.{◌≡◌, ◌≤◌, ◌+◌, ◌++◌, [], ◌∷◌, List, ℕ, length, OnOk, OnErr};
ghost use Rattle.xom_base.specs.declared.entry.Entry.{Entry as AnEntry};
ghost use Rattle.xom_base.specs.declared.entry.Entry.TheVariants.{Hash as AHash};
ghost use Rattle.journal_findings.specs.Findings.{first_collision};

use crate::hashes::{First, Hashes};
use std::alloc::Global;
use xom_base::{Block, NoMemory};

/// The search for two Hashes of one digest and different texts.
#[derive(Drop)]
pub struct Collisions {
    /// The first collision so far.
    pub found: Option<(u64, u64)>,
    /// The first Hash of each digest, as long as none was found.
    pub hashes: Hashes,
}

impl Collisions {
    ghost use Rattle.trace_judge.specs.HashSearch.{HasSearchedHashes, next_first as firsts_by, next_found as found_by};
    ghost use Rattle.trace_judge.specs.Maps.{first_in};

    /// Nothing was fed. Digests are looked up under the secret. It takes no memory.
    #[tactic(auto, using(crate::proofs::CollisionLaws::nothing_fed))]
    pub fn new(alloc: Global, secret: &[u8; 32]) -> Collisions
        ensures { HasSearchedHashes result [] }
    {
        Collisions {
            found: None,
            hashes: Hashes::new(alloc, secret),
        }
    }

    /// Takes the next entry, of this number: a Hash of this text.
    pub fn feed(&mut self, number: u64, text: &[u8], digest: &[u8; 32]) -> Result<(), NoMemory>
        requires { length text.now ≤ 260 }
        ensures ok { OnOk result ((es : List AnEntry) → number ≡ length es + 1 → HasSearchedHashes self.old es → HasSearchedHashes self.new (es ++ AHash text.now digest.now ∷ [])) }
        ensures err { OnErr result ((es : List AnEntry) → HasSearchedHashes self.old es → HasSearchedHashes self.new es) }
    {
        match self.look(number, text, digest) {
            Ok(()) => Ok(()),
            Err(e) => Err(e),
        }
    }

    /// Looks at a Hash.
    fn look(&mut self, number: u64, text: &[u8], digest: &[u8; 32]) -> Result<(), NoMemory>
        requires { length text.now ≤ 260 }
        ensures found { OnOk result (self.new.found ≡ found_by number self.old.found (first_in self.old.hashes) (AHash text.now digest.now)) }
        ensures firsts { OnOk result ((d : List ℕ) → first_in self.new.hashes d ≡ firsts_by number self.old.found (first_in self.old.hashes) (AHash text.now digest.now) d) }
        ensures kept { OnErr result (self.new.found ≡ self.old.found) }
        ensures still { OnErr result ((d : List ℕ) → first_in self.new.hashes d ≡ first_in self.old.hashes d) }
    {
        if self.found.is_some() {
            return Ok(());
        }
        match self.hashes.first(digest) {
            None => {
                let first = First {
                    number,
                    preimage: Block::new(text),
                };
                self.hashes.insert(digest, &first)?;
            }
            Some(first) => {
                if text != first.preimage.bytes() {
                    self.found = Some((first.number, number));
                }
            }
        }
        Ok(())
    }

    /// The first collision, as the lists have it.
    pub fn found(&self) -> Option<(u64, u64)>
        ensures { (es : List AnEntry) → HasSearchedHashes self.now es → result ≡ first_collision es }
    {
        self.found
    }
}
