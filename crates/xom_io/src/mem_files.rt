ghost use Rattle.std.specs.Prelude.{◌≡◌, ◌≤◌, ◌↔◌, ◌⊎◌, None, OnOk, OnErr, IsSome, option_copied, string_bytes};
ghost use Rattle.std.specs.FinMap as map;
ghost use Rattle.xom_io.specs.Answers.{Gets, Puts, KeepsOthers};
ghost use Rattle.xom_io.specs.Counts.{count_after_fault};
ghost use Rattle.xom_io.specs.Memory.{Fails, fresh_plan, memory_tells, plan_after_call, plan_with_failure};

use crate::calls::Calls;
use crate::shelf::{Shelf, copied};
use crate::{FileFault, Files};
use std::alloc::Global;
use std::marker::Model;
use xom_base::{ByteList, NoMemory};

/// Files in memory. They tell all that they hold, and fail at the calls that they are told to.
#[derive(Drop)]
pub struct MemFiles {
    shelf: Shelf,
    calls: Calls,
    reads: u64,
    writes: u64,
    alloc: Global,
}

impl Model for MemFiles {
    ghost use Rattle.xom_io.specs.Memory.{KeptByFiles, kept_code};

    ghost Value = { KeptByFiles };

    ghost coded = { kept_code };

    ghost view = { λ f. record { names = f.shelf; plan = f.calls; reads = f.reads; writes = f.writes } };
}

impl MemFiles {
    /// No name holds anything, and no call is to fail. It takes no memory.
    pub fn new(alloc: Global) -> MemFiles
        ensures { result ≡ record { names = map.empty; plan = fresh_plan; reads = 0; writes = 0 } }
    {
        MemFiles {
            shelf: Shelf::new(alloc),
            calls: Calls::new(alloc),
            reads: 0,
            writes: 0,
            alloc,
        }
    }

    /// Makes the name hold these bytes. This is no call of `put`: it isn't counted, and can't be made to fail.
    pub fn hold(&mut self, name: &String, bytes: &ByteList) -> Result<(), NoMemory>
        ensures ok { OnOk result (self.new ≡ record self.old { names = map.insert self.old.names (string_bytes name.now) bytes.now }) }
        ensures err { OnErr result (self.new ≡ self.old) }
    {
        self.shelf.set(name, bytes.as_slice())
    }

    /// Makes the call of this number fail. Calls of `get` and `put` are counted together, from 1 on.
    pub fn fail(&mut self, call: u64) -> Result<(), NoMemory>
        ensures ok { OnOk result (self.new ≡ record self.old { plan = plan_with_failure self.old.plan call }) }
        ensures err { OnErr result (self.new ≡ self.old) }
    {
        self.calls.fail(call)
    }

    /// The bytes that the name holds.
    pub fn held(&self, name: &String) -> Option<&[u8]>
        ensures { option_copied result ≡ map.get self.now.names (string_bytes name.now) }
    {
        match self.shelf.get(name) {
            Some(bytes) => Some(bytes.as_slice()),
            None => None,
        }
    }
}

impl Files for MemFiles {
    ghost held = { memory_tells };

    ghost reads = { λ f. f.reads };

    ghost writes = { λ f. f.writes };

    // Of a name that isn't held it says so also where the call is to fail, and counts no fault.
    fn get(&mut self, name: &String, limit: u64) -> Result<ByteList, FileFault>
        ensures answer { Gets (memory_tells self.old) (string_bytes name.now) limit self.old.reads self.new.reads result }
        ensures names { memory_tells self.new ≡ memory_tells self.old }
        ensures other_count { self.new.writes ≡ self.old.writes }
        ensures failed { (result ≡ Err FileFault.Failed) ↔ ((map.get self.old.names (string_bytes name.now) ≡ None) ⊎ Fails self.old.plan) }
        ensures raised { result ≡ Err FileFault.Failed → IsSome (map.get self.old.names (string_bytes name.now)) → self.new.reads ≡ count_after_fault self.old.reads }
        ensures others { self.new ≡ record self.old { plan = plan_after_call self.old.plan; reads = self.new.reads } }
    {
        let fails = self.calls.count();
        let Some(bytes) = self.shelf.get(name) else {
            return Err(FileFault::Failed);
        };
        if fails {
            self.reads = self.reads.saturating_add(1);
            return Err(FileFault::Failed);
        }
        if bytes.len() as u64 > limit {
            return Err(FileFault::TooLong);
        }
        Ok(copied(self.alloc, bytes.as_slice())?)
    }

    #[tactic(auto, using(crate::proofs::Named::after_set))]
    fn put(&mut self, name: &String, bytes: &ByteList) -> Result<(), FileFault>
        ensures answer { Puts (memory_tells self.old) (memory_tells self.new) (string_bytes name.now) bytes.now self.old.writes self.new.writes result }
        ensures others { KeepsOthers (memory_tells self.old) (memory_tells self.new) (string_bytes name.now) }
        ensures other_count { self.new.reads ≡ self.old.reads }
        ensures failed { (result ≡ Err FileFault.Failed) ↔ Fails self.old.plan }
        ensures raised { result ≡ Err FileFault.Failed → self.new.writes ≡ count_after_fault self.old.writes }
        ensures plan { self.new.plan ≡ plan_after_call self.old.plan }
    {
        if self.calls.count() {
            self.writes = self.writes.saturating_add(1);
            return Err(FileFault::Failed);
        }
        Ok(self.shelf.set(name, bytes.as_slice())?)
    }
}
