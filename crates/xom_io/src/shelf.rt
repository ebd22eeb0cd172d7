ghost use Rattle.std.specs.Prelude.{◌≡◌, OnOk, OnErr, IfOk, option_copied, string_bytes};
ghost use Rattle.std.specs.FinMap as map;

use std::alloc::Global;
use std::collections::BTreeMap;
use std::marker::Model;
use xom_base::{ByteList, NoMemory};

/// What names hold, as a map from the bytes of each name.
#[derive(Drop)]
pub struct Shelf {
    files: BTreeMap<String, ByteList>,
    alloc: Global,
}

impl Model for Shelf {
    ghost use Rattle.std.specs.Coded.{coded_ℕ, coded_list};
    ghost use Rattle.std.specs.FinMap as map;
    ghost use Rattle.xom_io.specs.Names.{Named, names_of_map};

    ghost Value = { Named };

    ghost coded = { map.code (coded_list coded_ℕ) (coded_list coded_ℕ) };

    ghost view = { λ s. names_of_map s.files };
}

impl Shelf {
    /// No name holds anything.
    pub fn new(alloc: Global) -> Shelf
        ensures { result ≡ map.empty }
    {
        Shelf {
            files: BTreeMap::new(alloc),
            alloc,
        }
    }

    /// What the name holds. It looks at some of the names, at most their logarithm.
    pub fn get(&self, name: &String) -> Option<&ByteList>
        ensures { option_copied result ≡ map.get self.now (string_bytes name.now) }
    {
        self.files.get(name.as_str())
    }

    /// Makes the name hold a copy of these bytes.
    pub fn set(&mut self, name: &String, bytes: &[u8]) -> Result<(), NoMemory>
        ensures ok { OnOk result (self.new ≡ map.insert self.old (string_bytes name.now) bytes.now) }
        ensures err { OnErr result (self.new ≡ self.old) }
    {
        let key = name.clone()?;
        let copy = copied(self.alloc, bytes)?;
        let _ = self.files.insert(key, copy)?;
        Ok(())
    }
}

/// A list of these bytes.
pub fn copied(alloc: Global, bytes: &[u8]) -> Result<ByteList, NoMemory>
    ensures { IfOk result (λ list. list ≡ bytes.now) }
{
    Ok(ByteList::from_vec(Vec::from_slice(alloc, bytes)?))
}
