ghost use Rattle.std.specs.Prelude.{◌≡◌, ℕ, List, Some, None, IfOk, OnOk, is_some, if◌then◌else◌};
ghost use Rattle.std.specs.Str.{bytes_eq};

use std::alloc::Global;
use std::collections::HashMap;
use xom_base::NoMemory;

/// The places that names stand for. A look-up or an insertion costs constant time on average, beside
/// that of the name.
#[derive(Drop)]
pub struct Labels<'a> {
    places: HashMap<&'a [u8], u64>,
}

impl<'a> Labels<'a> {
    ghost use Rattle.mips_asm.specs.LabelMaps.{place_in};

    /// No name stands for a place. It takes no memory.
    pub fn new(alloc: Global) -> Labels<'a>
        ensures { (name : List ℕ) → place_in result name ≡ None }
    {
        Labels {
            places: HashMap::new(alloc),
        }
    }

    /// Lets a name stand for a place, and answers whether it stood for one before.
    pub fn insert(&mut self, name: &'a [u8], place: u64) -> Result<bool, NoMemory>
        ensures known { IfOk result (λ known. known ≡ is_some (place_in self.old name.now)) }
        ensures places { OnOk result ((other : List ℕ) → place_in self.new other ≡ (if bytes_eq name.now other then Some place else place_in self.old other)) }
    {
        let old = self.places.insert(name, place)?;
        Ok(old.is_some())
    }

    /// The place that a name stands for.
    pub fn place(&self, name: &[u8]) -> Option<u64>
        ensures { result ≡ place_in self.now name.now }
    {
        self.places.get(name).copied()
    }
}
