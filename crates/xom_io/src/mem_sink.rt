ghost use Rattle.std.specs.Prelude.{◌≡◌, ◌≤◌, ◌<◌, ◌+◌, ◌↔◌, [], ◌++◌, length, Some, OnOk, OnErr, IfOk};
ghost use Rattle.xom_io.specs.Answers.{SinkTakes};
ghost use Rattle.xom_io.specs.Counts.{count_after_fault};
ghost use Rattle.xom_io.specs.Memory.{Fails, after_put, fresh_plan, part_of, plan_with_failure};

use crate::calls::Calls;
use crate::{Sink, SinkFault};
use std::alloc::Global;
use std::marker::Model;
use xom_base::NoMemory;

/// A sink in memory. It tells all that was written, and fails at the calls that it is told to.
#[derive(Drop)]
pub struct MemSink {
    bytes: Vec<u8>,
    calls: Calls,
    faults: u64,
}

impl Model for MemSink {
    ghost use Rattle.std.specs.Prelude.{◌-◌, vec_len, vec_capacity};
    ghost use Rattle.xom_io.specs.Memory.{Sunk};

    ghost Value = { Sunk };

    ghost view = { λ s. record { bytes = s.bytes.items; room = vec_capacity s.bytes - vec_len s.bytes; plan = s.calls; faults = s.faults } };
}

impl MemSink {
    /// Nothing is written, and no put is to fail. It takes no memory.
    pub fn new(alloc: Global) -> MemSink
        ensures bytes { result.bytes ≡ [] }
        ensures plan { result.plan ≡ fresh_plan }
        ensures faults { result.faults ≡ 0 }
    {
        MemSink {
            bytes: Vec::new(alloc),
            calls: Calls::new(alloc),
            faults: 0,
        }
    }

    /// Makes the put of this number fail. Puts are counted from 1; one of an empty piece isn't counted.
    pub fn fail(&mut self, call: u64) -> Result<(), NoMemory>
        ensures ok { OnOk result (self.new ≡ record self.old { plan = plan_with_failure self.old.plan call }) }
        ensures err { OnErr result (self.new ≡ self.old) }
    {
        self.calls.fail(call)
    }

    /// The bytes written.
    pub fn bytes(&self) -> &[u8]
        ensures { result.now ≡ self.now.bytes }
    {
        self.bytes.as_slice()
    }

    /// Makes room for so many more bytes.
    pub fn reserve(&mut self, more: usize) -> Result<(), NoMemory>
        ensures ok { OnOk result (more ≤ self.new.room) }
        ensures err { OnErr result (self.old.room < more) }
        ensures kept { self.old.room ≤ self.new.room }
        ensures others { self.new ≡ record self.old { room = self.new.room } }
    {
        Ok(self.bytes.reserve(more)?)
    }

    // How many bytes it takes without more memory.
    fn room(&self) -> usize
        ensures { result ≡ self.now.room }
    {
        self.bytes.capacity() - self.bytes.len()
    }

    // Appends these bytes, for which there is room.
    fn append(&mut self, bytes: &[u8])
        requires { length bytes.now ≤ self.old.room }
        ensures bytes { self.new.bytes ≡ self.old.bytes ++ bytes.now }
        ensures room { self.old.room ≤ self.new.room + length bytes.now }
        ensures plan { self.new.plan ≡ self.old.plan }
        ensures faults { self.new.faults ≡ self.old.faults }
    {
        self.bytes.extend_from_slice(bytes).unwrap();
    }
}

impl Sink for MemSink {
    ghost written = { λ s. Some s.bytes };

    ghost faults = { λ s. s.faults };

    fn put(&mut self, bytes: &[u8]) -> Result<usize, SinkFault>
        ensures takes { SinkTakes (Some self.old.bytes) (Some self.new.bytes) bytes.now self.old.faults self.new.faults result }
        ensures part { IfOk result (λ n. n ≡ part_of self.old.room bytes.now) }
        ensures failed { (result ≡ Err SinkFault.Failed) ↔ ((0 < length bytes.now) × Fails self.old.plan) }
        ensures raised { result ≡ Err SinkFault.Failed → self.new.faults ≡ count_after_fault self.old.faults }
        ensures no_memory { result ≡ Err SinkFault.NoMemory → self.old.room ≡ 0 }
        ensures plan { self.new.plan ≡ after_put self.old.plan bytes.now }
        ensures room_after { IfOk result (λ n. self.old.room ≤ self.new.room + n) }
        ensures room_left { OnErr result (self.old.room ≤ self.new.room) }
    {
        if bytes.is_empty() {
            return Ok(0);
        }
        if self.calls.count() {
            self.faults = self.faults.saturating_add(1);
            return Err(SinkFault::Failed);
        }
        if self.room() == 0 {
            self.reserve(bytes.len())?;
        }
        let n = bytes.len().min(self.room());
        self.append(&bytes[..n]);
        Ok(n)
    }
}
