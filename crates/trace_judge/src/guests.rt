ghost use Rattle.std.specs.Prelude.{◌≡◌, ◌<◌, ◌+◌, ◌%◌, ◌^◌, ◌++◌, [], ◌∷◌, List, length, map, true, OnOk, OnErr, IfOk, if◌then◌else◌};
ghost use Rattle.xom_base.specs.declared.entry.Entry.{Entry as AnEntry};
ghost use Rattle.xom_owners.specs.declared.owner.Owner.{Owner};
ghost use Rattle.trace_judge.specs.GuestWatch.{end_after_entry as end_after_of, left_after, line_after, next_guest};
ghost use Rattle.mips_plain.specs.Follows.{given_of as given_by, is_step};
ghost use Rattle.mips_plain.specs.Machine.{plain as plain_of};
ghost use Rattle.trace_judge.specs.Judgement.{guest_lines};
ghost use Rattle.trace_judge.specs.Numbers.{install_count, is_installed as is_installed_by, may_stand as may_stand_by};

use crate::steps::{does, end_in, step_in};
use crate::{GuestEnd, GuestLine, GuestLineList, Verdict};
use mips_plain::Plain;
use std::alloc::Global;
use xom_base::{Entry, ImageId, NoMemory, Step};
use xom_owners::{OwnerList, owner_of};

/// What is known of an install's steps so far.
#[derive(Drop)]
pub enum Watch {
    /// No owner has its id.
    NoOwner,
    /// All of them follow, so many. The plain machine is where they lead.
    Runs { plain: Plain, count: u64 },
    /// All of them follow, so many, and the program ended with the last. Another one departs.
    Over { count: u64 },
    /// This one departs. What comes behind it doesn't matter.
    Departed { place: u64 },
}

/// An install, as far as the entries tell of it.
#[derive(Drop)]
pub struct Guest {
    pub install: u64,
    pub slot: u8,
    pub id: ImageId,
    pub watch: Watch,
    pub end: GuestEnd,
}

impl Watch {
    ghost use Rattle.trace_judge.specs.GuestWatch.{verdict_after, watch_after_step};

    /// Takes the next step, in place. Wants no memory, and lets the machine go where the step departs or is
    /// the last.
    fn step(&mut self, step: &Step)
        ensures { self.new ≡ watch_after_step self.old step.now }
    {
        let left = match self {
            Watch::Runs { plain, count } => run(plain, count, step),
            Watch::Over { count } => Some(Watch::Departed {
                place: count.wrapping_add(1),
            }),
            Watch::NoOwner => None,
            Watch::Departed { place: _place } => None,
        };
        if let Some(next) = left {
            *self = next;
        }
    }

    /// The verdict so far.
    fn verdict(&self) -> Verdict
        ensures { result ≡ verdict_after self.now [] }
    {
        match self {
            Watch::NoOwner => Verdict::NoOwner,
            Watch::Runs {
                plain: _plain,
                count,
            } => Verdict::Follows(*count),
            Watch::Over { count } => Verdict::Follows(*count),
            Watch::Departed { place } => Verdict::Departs(*place),
        }
    }
}

/// Lets a program take its next step, where `count` came before. Answers what is known of it then, where it
/// doesn't go on.
fn run(plain: &mut Plain, count: &mut u64, step: &Step) -> Option<Watch>
    ensures plain { plain.new ≡ (plain_of plain.old (given_by step.now.received)).1 }
    ensures count { count.new ≡ (count.old + 1) % 2 ^ 64 }
    ensures left { result ≡ left_after plain.old count.new step.now }
{
    *count = count.wrapping_add(1);
    if !does(plain, step) {
        return Some(Watch::Departed { place: *count });
    }
    if plain.is_over() {
        return Some(Watch::Over { count: *count });
    }
    None
}

impl Guest {
    ghost use Rattle.trace_judge.specs.GuestWatch.{new_guest};

    /// An install before its first step. Makes its plain machine, where it has an owner.
    fn new(
        alloc: Global,
        owners: &OwnerList,
        install: u64,
        slot: u8,
        id: ImageId,
    ) -> Result<Guest, NoMemory>
        ensures { IfOk result (λ g. g ≡ new_guest owners.now install slot id) }
    {
        let watch = match owner_of(owners, &id) {
            None => Watch::NoOwner,
            Some(owner) => Watch::Runs {
                plain: Plain::new(alloc, &owner.plain)?,
                count: 0,
            },
        };
        Ok(Guest {
            install,
            slot,
            id,
            watch,
            end: GuestEnd::Running,
        })
    }

    /// Takes the next entry. Wants no memory.
    fn take(&mut self, entry: &Entry)
        ensures { self.new ≡ next_guest self.old entry.now }
    {
        self.end = next_end(self.end, self.install, entry);
        if let Some(step) = step_in(self.install, entry) {
            self.watch.step(&step);
        }
    }

    /// The line of the report.
    fn line(&self) -> GuestLine
        ensures { result ≡ line_after self.now [] }
    {
        GuestLine {
            install: self.install,
            slot: self.slot,
            id: self.id,
            verdict: self.watch.verdict(),
            end: self.end,
        }
    }
}

/// The end after an entry.
pub fn next_end(end: GuestEnd, install: u64, entry: &Entry) -> GuestEnd
    ensures { result ≡ end_after_of end install entry.now }
{
    match end {
        GuestEnd::Running => end_in(install, entry).unwrap_or(GuestEnd::Running),
        other => other,
    }
}

/// The installs so far, in their order.
#[derive(Drop)]
pub struct Guests {
    pub items: Vec<Guest>,
}

impl Guests {
    ghost use Rattle.trace_judge.specs.GuestWatch.{IsFed, IsInstall, guests_after, new_guest, next_guests};

    /// Nothing was fed. It takes no memory.
    #[tactic(auto, using(crate::proofs::GuestLaws::nothing_fed))]
    pub fn new(alloc: Global) -> Guests
        ensures { (owners : List Owner) → IsFed owners result.items.items [] }
    {
        Guests {
            items: Vec::new(alloc),
        }
    }

    /// Whether an entry may stand next.
    pub fn may_stand(&self, entry: &Entry) -> bool
        ensures { result ≡ may_stand_by (length self.now.items.items) entry.now }
    {
        let count = self.items.len() as u64;
        match *entry {
            Entry::Install { install, .. } => install == count + 1,
            Entry::Step { install, .. } => is_installed(count, install),
            Entry::Trap { install, .. } => is_installed(count, install),
            Entry::Stop { install, .. } => is_installed(count, install),
            Entry::Kill { install } => is_installed(count, install),
            _ => true,
        }
    }

    /// Takes the next entry. Costs the same however many there were.
    pub fn feed(&mut self, alloc: Global, owners: &OwnerList, entry: &Entry) -> Result<(), NoMemory>
        ensures ok { OnOk result ((es : List AnEntry) → length es + 1 < 2 ^ 64 → may_stand_by (install_count es) entry.now ≡ true → IsFed owners.now self.old.items.items es → IsFed owners.now self.new.items.items (es ++ entry.now ∷ [])) }
        ensures err { OnErr result (self.new.items.items ≡ self.old.items.items) }
        ensures only { OnErr result (IsInstall entry.now) }
    {
        match self.look(alloc, owners, entry) {
            Ok(()) => Ok(()),
            Err(e) => Err(e),
        }
    }

    /// Looks at an entry.
    fn look(&mut self, alloc: Global, owners: &OwnerList, entry: &Entry) -> Result<(), NoMemory>
        ensures ok { OnOk result (self.new.items.items ≡ next_guests owners.now self.old.items.items entry.now) }
        ensures err { OnErr result (self.new.items.items ≡ self.old.items.items) }
        ensures only { OnErr result (IsInstall entry.now) }
    {
        match *entry {
            Entry::Install {
                install,
                slot,
                id,
                ..
            } => self.install(alloc, owners, install, slot, id),
            Entry::Step { install, .. } => {
                self.take(install, entry);
                Ok(())
            }
            Entry::Stop { install, .. } => {
                self.take(install, entry);
                Ok(())
            }
            Entry::Kill { install } => {
                self.take(install, entry);
                Ok(())
            }
            _ => Ok(()),
        }
    }

    /// Adds an install.
    fn install(
        &mut self,
        alloc: Global,
        owners: &OwnerList,
        install: u64,
        slot: u8,
        id: ImageId,
    ) -> Result<(), NoMemory>
        ensures ok { OnOk result (self.new.items.items ≡ self.old.items.items ++ new_guest owners.now install slot id ∷ []) }
        ensures err { OnErr result (self.new.items.items ≡ self.old.items.items) }
    {
        let guest = Guest::new(alloc, owners, install, slot, id)?;
        match self.items.push(guest) {
            Ok(()) => Ok(()),
            Err(_) => Err(NoMemory),
        }
    }

    /// Lets an install take the next entry, if there is one of this number.
    fn take(&mut self, install: u64, entry: &Entry)
        ensures { self.new.items.items ≡ guests_after self.old.items.items install entry.now }
    {
        let place = install.saturating_sub(1) as usize;
        if place < self.items.len() {
            self.items[place].take(entry);
        }
    }

    /// The lines of the report.
    pub fn lines(&self, alloc: Global) -> Result<GuestLineList, NoMemory>
        ensures { IfOk result (λ lines. (owners : List Owner) → (es : List AnEntry) → IsFed owners self.now.items.items es → lines ≡ guest_lines owners es) }
    {
        let lines = lines_of(alloc, &self.items)?;
        Ok(lines)
    }
}

/// Whether there was an install of this number, where there were so many.
fn is_installed(count: u64, install: u64) -> bool
    ensures { result ≡ is_installed_by count install }
{
    1 <= install && install <= count
}

/// The lines of some guests.
fn lines_of(alloc: Global, guests: &[Guest]) -> Result<GuestLineList, NoMemory>
    ensures { IfOk result (λ lines. lines ≡ map (λ g. line_after g []) guests.now) }
{
    let mut lines = GuestLineList::new(alloc);
    for guest in guests {
        lines.push(guest.line())?;
    }
    Ok(lines)
}
