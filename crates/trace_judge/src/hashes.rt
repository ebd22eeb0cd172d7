ghost use Rattle.std.specs.Prelude.{◌≡◌, List, ℕ, Some, None, OnOk, OnErr, if◌then◌else◌, option_copied};
ghost use Rattle.std.specs.Str.{bytes_eq};

use std::alloc::Global;
use text_table::TextTable;
use xom_base::{Block, NoMemory};

/// The first Hash of a digest: its number and its text.
#[derive(Clone, Copy)]
pub struct First {
    pub number: u64,
    pub preimage: Block,
}

/// The first Hash of each digest.
#[derive(Drop)]
pub struct Hashes {
    table: TextTable<Box<First>>,
    alloc: Global,
}

impl Hashes {
    ghost use Rattle.trace_judge.specs.Maps.{first_in};

    /// No digest has a text. It takes no memory.
    pub fn new(alloc: Global, secret: &[u8; 32]) -> Hashes
        ensures { (digest : List ℕ) → first_in result digest ≡ None }
    {
        Hashes {
            table: TextTable::new(alloc, secret),
            alloc,
        }
    }

    /// The first Hash of a digest.
    pub fn first(&self, digest: &[u8; 32]) -> Option<&First>
        ensures { option_copied result ≡ first_in self.now digest.now }
    {
        let first = self.table.get(digest.as_slice())?;
        Some(&**first)
    }

    /// Lets this be the first Hash of a digest.
    pub fn insert(&mut self, digest: &[u8; 32], first: &First) -> Result<(), NoMemory>
        ensures ok { OnOk result ((other : List ℕ) → first_in self.new other ≡ (if bytes_eq digest.now other then Some first.now else first_in self.old other)) }
        ensures err { OnErr result ((other : List ℕ) → first_in self.new other ≡ first_in self.old other) }
    {
        let boxed = Box::new(self.alloc, *first)?;
        match self.table.insert(digest.as_slice(), boxed) {
            Ok(()) => Ok(()),
            Err(e) => Err(e),
        }
    }
}
