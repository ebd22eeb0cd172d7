ghost use Rattle.std.specs.Prelude.{◌≡◌, ◌↔◌, IsTrue, OnOk, OnErr};
ghost use Rattle.xom_io.specs.Memory.{Fails, fresh_plan, plan_after_call, plan_with_failure};

use std::alloc::Global;
use std::marker::Model;
use xom_base::{NoMemory, NumberList};

/// Which calls of an object in memory are to fail, by their numbers from 1 on.
#[derive(Drop)]
pub struct Calls {
    failing: NumberList,
    next: Option<u64>,
}

impl Model for Calls {
    ghost use Rattle.xom_io.specs.Memory.{Plan};

    ghost Value = { Plan };

    ghost view = { λ c. record { failing = c.failing; next = c.next } };
}

impl Calls {
    /// No call is to fail, and the next one is the first.
    pub fn new(alloc: Global) -> Calls
        ensures { result ≡ fresh_plan }
    {
        Calls {
            failing: NumberList::new(alloc),
            next: Some(1),
        }
    }

    /// Makes the call of this number fail.
    pub fn fail(&mut self, call: u64) -> Result<(), NoMemory>
        ensures ok { OnOk result (self.new ≡ plan_with_failure self.old call) }
        ensures err { OnErr result (self.new ≡ self.old) }
    {
        self.failing.push(call)
    }

    /// Counts a call, and says whether it is to fail. It looks through all the numbers.
    pub fn count(&mut self) -> bool
        ensures listed { IsTrue result ↔ Fails self.old }
        ensures counted { self.new ≡ plan_after_call self.old }
    {
        let Some(call) = self.next else {
            return false;
        };
        self.next = call.checked_add(1);
        self.failing.as_slice().contains(&call)
    }
}
