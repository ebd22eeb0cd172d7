ghost use Rattle.std.specs.Prelude.{◌≡◌, ◌≤◌, ◌+◌, ◌∷◌, ◌++◌, List, ℕ, Bool, true, false, OnOk, OnErr, length, if◌then◌else◌};
ghost use Rattle.std.specs.Str.{bytes_eq};
ghost use Rattle.arrayvec.specs.ArrayVec.{array_vec_len};
ghost use Rattle.trace_judge.specs.SealSearch.{name};

use arrayvec::ArrayVec;
use std::alloc::Global;
use text_table::TextTable;
use xom_base::{NoMemory, Short};

/// A set of names.
#[derive(Drop)]
pub struct Names {
    table: TextTable<()>,
}

/// Adds bytes where there is room.
fn add(name: &mut ArrayVec<u8, 193>, text: &[u8])
    requires { array_vec_len name.old + length text.now ≤ 193 }
    ensures items { name.new.items ≡ name.old.items ++ text.now }
    ensures len { array_vec_len name.new ≡ array_vec_len name.old + length text.now }
{
    match name.try_extend_from_slice(text) {
        Ok(()) => {}
        Err(_) => unreachable!(),
    }
}

/// A key and a message as one name: the length of the key, the key, the message.
pub fn name_of(key: &Short, message: &Short) -> ArrayVec<u8, 193>
    ensures { result.items ≡ name key.now message.now }
{
    let _length = message.len();
    let mut name = ArrayVec::new();
    name.push(key.len() as u8);
    add(&mut name, key.bytes());
    add(&mut name, message.bytes());
    name
}

impl Names {
    ghost use Rattle.trace_judge.specs.Maps.{has_name};

    /// No name. It takes no memory.
    pub fn new(alloc: Global, secret: &[u8; 32]) -> Names
        ensures { (name : List ℕ) → has_name result name ≡ false }
    {
        Names {
            table: TextTable::new(alloc, secret),
        }
    }

    /// Whether the name stands in the set.
    pub fn has(&self, name: &[u8]) -> bool
        ensures { result ≡ has_name self.now name.now }
    {
        self.table.get(name).is_some()
    }

    /// Puts a name into the set.
    pub fn insert(&mut self, name: &[u8]) -> Result<(), NoMemory>
        ensures ok { OnOk result ((other : List ℕ) → has_name self.new other ≡ (if bytes_eq name.now other then true else has_name self.old other)) }
        ensures err { OnErr result ((other : List ℕ) → has_name self.new other ≡ has_name self.old other) }
    {
        match self.table.insert(name, ()) {
            Ok(()) => Ok(()),
            Err(e) => Err(e),
        }
    }
}
