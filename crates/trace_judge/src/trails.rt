ghost use Rattle.std.specs.Prelude.{◌≡◌, ◌==◌, ℕ, [], IfOk, OnOk, if◌then◌else◌};
ghost use Rattle.trace_judge.specs.Trails.{install_told, told_after, told_of_install, trail_tells};

use crate::GuestEnd;
use crate::guests::next_end;
use crate::steps::step_in;
use std::alloc::Global;
use std::collections::BTreeMap;
use xom_base::{Entry, NoMemory, Step};

/// What entries tell of an install: its steps, in their order, and its first end.
#[derive(Drop)]
pub struct Trail {
    steps: Vec<Step>,
    end: GuestEnd,
}

impl Trail {
    /// Nothing is told. It takes no memory.
    fn new(alloc: Global) -> Trail
        ensures { trail_tells (Some result) ≡ trail_tells None }
    {
        Trail {
            steps: Vec::new(alloc),
            end: GuestEnd::Running,
        }
    }

    /// Takes the next entry, as what it tells of this install.
    fn take(mut self, install: u64, entry: &Entry) -> Result<Trail, NoMemory>
        ensures { IfOk result (λ trail. trail_tells (Some trail) ≡ told_after (trail_tells (Some self)) install entry.now) }
    {
        if let Some(step) = step_in(install, entry) {
            self.steps.push(step)?;
        }
        self.end = next_end(self.end, install, entry);
        Ok(self)
    }
}

/// What entries tell of each install, by its number.
#[derive(Drop)]
pub struct Trails {
    trails: BTreeMap<u64, Trail>,
    alloc: Global,
}

impl Trails {
    /// Nothing is told. It takes no memory.
    fn new(alloc: Global) -> Trails
        ensures { (n : ℕ) → told_of_install result n ≡ install_told [] n }
    {
        Trails {
            trails: BTreeMap::new(alloc),
            alloc,
        }
    }

    /// Takes the next entry. Costs a look-up among the install numbers.
    fn add(&mut self, entry: &Entry) -> Result<(), NoMemory>
        ensures { OnOk result ((n : ℕ) → told_of_install self.new n ≡ told_after (told_of_install self.old n) n entry.now) }
    {
        match *entry {
            Entry::Step { install, .. } => self.put(install, entry),
            Entry::Stop { install, .. } => self.put(install, entry),
            Entry::Kill { install } => self.put(install, entry),
            _ => Ok(()),
        }
    }

    /// Takes an entry as what it tells of this install.
    fn put(&mut self, install: u64, entry: &Entry) -> Result<(), NoMemory>
        ensures { OnOk result ((n : ℕ) → told_of_install self.new n ≡ (if install == n then told_after (told_of_install self.old n) n entry.now else told_of_install self.old n)) }
    {
        let found = match self.trails.remove(&install) {
            Some(trail) => trail,
            None => Trail::new(self.alloc),
        };
        let trail = found.take(install, entry)?;
        let _old = self.trails.insert(install, trail)?;
        Ok(())
    }

    /// The steps of an install.
    pub fn steps(&self, install: u64) -> &[Step]
        ensures { result.now ≡ (told_of_install self.now install).steps }
    {
        match self.trails.get(&install) {
            Some(trail) => trail.steps.as_slice(),
            None => &[],
        }
    }

    /// The end of an install.
    pub fn end(&self, install: u64) -> GuestEnd
        ensures { result ≡ (told_of_install self.now install).end }
    {
        match self.trails.get(&install) {
            Some(trail) => trail.end,
            None => GuestEnd::Running,
        }
    }
}

/// What entries tell of each install.
pub fn trails_of(alloc: Global, entries: &[Entry]) -> Result<Trails, NoMemory>
    ensures { IfOk result (λ trails. (n : ℕ) → told_of_install trails n ≡ install_told entries.now n) }
{
    let mut trails = Trails::new(alloc);
    for entry in entries {
        trails.add(entry)?;
    }
    Ok(trails)
}
