ghost use Rattle.std.specs.Prelude.{◌≡◌, ◌==◌, ◌&&◌, ℕ, List, Some, None, OnOk, if◌then◌else◌};
ghost use Rattle.std.specs.Str.{bytes_eq};

use crate::Verdict;
use std::alloc::Global;
use std::collections::BTreeMap;
use xom_base::{ImageId, NoMemory};

/// Verdicts that were found before, by install number and id.
#[derive(Drop)]
pub struct Verdicts {
    found: BTreeMap<(u64, [u8; 16]), Verdict>,
}

impl Verdicts {
    ghost use Rattle.trace_judge.specs.Verdicts.{found_before};

    /// None was found. It takes no memory.
    pub fn new(alloc: Global) -> Verdicts
        ensures { (n : ℕ) → (id : List ℕ) → found_before result n id ≡ None }
    {
        Verdicts {
            found: BTreeMap::new(alloc),
        }
    }

    /// The verdict on the steps of an install by the program of this id.
    pub fn get(&self, install: u64, id: &ImageId) -> Option<Verdict>
        ensures { result ≡ found_before self.now install id.now.0 }
    {
        self.found.get(&(install, id.0)).copied()
    }

    /// Keeps a verdict.
    pub fn insert(&mut self, install: u64, id: &ImageId, verdict: Verdict) -> Result<(), NoMemory>
        ensures { OnOk result ((n : ℕ) → (other : List ℕ) → found_before self.new n other ≡ (if (install == n) && bytes_eq id.now.0 other then Some verdict else found_before self.old n other)) }
    {
        let _old = self.found.insert((install, id.0), verdict)?;
        Ok(())
    }
}
