ghost use Rattle.std.specs.Prelude.{◌≡◌, ◌+◌, ◌++◌, [], ◌∷◌, ◌||◌, List, ℕ, None, length, OnOk, OnErr};
ghost use Rattle.xom_base.specs.declared.entry.Entry.{Entry as AnEntry};
ghost use Rattle.image_sealer.specs.Membership.{is_sealed};
ghost use Rattle.journal_findings.specs.Findings.{first_forgery};

use crate::names::{Names, name_of};
use crate::sealings::Sealings;
use std::alloc::Global;
use xom_base::{Entry, NoMemory, Short};

/// The search for an Accept of what nobody sealed before.
#[derive(Drop)]
pub struct Forgeries {
    /// The first forged Accept so far.
    pub found: Option<u64>,
    /// What was sealed so far, as long as none was found.
    pub names: Names,
}

impl Forgeries {
    ghost use Rattle.trace_judge.specs.Maps.{has_name};
    ghost use Rattle.trace_judge.specs.SealSearch.{HasSearchedSeals, IsSeal, all_sealings, answer_at_accept, name, next_forged as forged_by, next_has as has_by};

    /// Nothing was fed. Names are looked up under the secret. It takes no memory.
    #[tactic(auto, using(crate::proofs::ForgeryLaws::nothing_fed))]
    pub fn new(alloc: Global, secret: &[u8; 32]) -> Forgeries
        ensures { (sealed : List (List ℕ × List ℕ)) → HasSearchedSeals sealed result [] }
    {
        Forgeries {
            found: None,
            names: Names::new(alloc, secret),
        }
    }

    /// Takes the next entry, of this number, where owners sealed these.
    pub fn feed(&mut self, owned: &Sealings, number: u64, entry: &Entry) -> Result<(), NoMemory>
        ensures ok { OnOk result ((es : List AnEntry) → number ≡ length es + 1 → HasSearchedSeals (all_sealings owned.now) self.old es → HasSearchedSeals (all_sealings owned.now) self.new (es ++ entry.now ∷ [])) }
        ensures err { OnErr result ((sealed : List (List ℕ × List ℕ)) → (es : List AnEntry) → HasSearchedSeals sealed self.old es → HasSearchedSeals sealed self.new es) }
        ensures only { OnErr result (IsSeal entry.now) }
    {
        match self.look(owned, number, entry) {
            Ok(()) => Ok(()),
            Err(e) => Err(e),
        }
    }

    /// Looks at an entry.
    fn look(&mut self, owned: &Sealings, number: u64, entry: &Entry) -> Result<(), NoMemory>
        ensures found { OnOk result (self.new.found ≡ forged_by (all_sealings owned.now) number self.old.found (has_name self.old.names) entry.now) }
        ensures has { OnOk result ((n : List ℕ) → has_name self.new.names n ≡ has_by self.old.found (has_name self.old.names) entry.now n) }
        ensures kept { OnErr result (self.new.found ≡ self.old.found) }
        ensures still { OnErr result ((n : List ℕ) → has_name self.new.names n ≡ has_name self.old.names n) }
        ensures only { OnErr result (IsSeal entry.now) }
    {
        if self.found.is_some() {
            return Ok(());
        }
        match entry {
            Entry::Seal { key, message } => self.names.insert(name_of(key, message).as_slice()),
            Entry::Accept {
                key,
                message,
                place: _place,
            } => {
                self.accept(owned, number, key, message);
                Ok(())
            }
            _ => Ok(()),
        }
    }

    /// Looks at an Accept, where none was forged before.
    fn accept(&mut self, owned: &Sealings, number: u64, key: &Short, message: &Short)
        requires { self.old.found ≡ None }
        ensures names { self.new.names ≡ self.old.names }
        ensures found { self.new.found ≡ answer_at_accept number (is_sealed key.now message.now (all_sealings owned.now) || has_name self.old.names (name key.now message.now)) }
    {
        if !(owned.has(key, message) || self.names.has(name_of(key, message).as_slice())) {
            self.found = Some(number);
        }
    }

    /// The first forged Accept, as the lists have it.
    pub fn found(&self) -> Option<u64>
        ensures { (sealed : List (List ℕ × List ℕ)) → (es : List AnEntry) → HasSearchedSeals sealed self.now es → result ≡ first_forgery sealed es }
    {
        self.found
    }
}
