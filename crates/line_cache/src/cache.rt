ghost use Rattle.std.specs.Prelude.{◌≡◌, ◌≤◌, ◌<◌, ◌^◌, ◌↔◌, ◌+◌, IfNone, IfOk, IfSome, IsNone, IsSome, None, Some, length, position};
ghost use Rattle.std.specs.Borrow.{sem};
ghost use Rattle.line_cache.specs.Lines.{IsLeastAmong};
ghost use Rattle.line_cache.specs.Ways.{cache_with_line, empty_cache, first_place as first_of, first_pointers as first_pointers_of_sets, free_if, free_in_set, is_free, is_of, no_ways, place_for, place_of_line, victim_for, way_at, without_slot};

use crate::{Victim, Way};
use std::alloc::Global;
use std::marker::Model;
use xom_base::NoMemory;

/// The lines of guests that are on chip. After `new` nothing takes memory.
#[derive(Drop)]
pub struct LineCache {
    ways: Vec<Way>,
    pointers: [u8; 32],
}

impl Model for LineCache {
    ghost use Rattle.line_cache.specs.Ways.{Cache};

    ghost Value = { Cache };

    ghost use Rattle.line_cache.specs.Lines.{IsCache};

    ghost view = { λ c. record { ways = c.ways.items; pointers = c.pointers } };

    ghost invariant = { λ c. IsCache (record { ways = c.ways.items; pointers = c.pointers }) };
}

impl LineCache {
    ghost use Rattle.line_cache.specs.Lines.{BringsIn, DropsSlot, HasNoLine, IsFilled, IsFull, IsLine, TakesLeast};
    ghost use Rattle.line_cache.specs.Lending.{LendsBytes};

    /// No line is cached, and each pointer is at the first way.
    #[tactic(auto, using(crate::proofs::Start::empty_is_cache))]
    pub fn new(alloc: Global) -> Result<LineCache, NoMemory>
        ensures { IfOk result (λ cache. cache ≡ empty_cache) }
    {
        Ok(LineCache {
            ways: free_ways(alloc)?,
            pointers: first_pointers(),
        })
    }

    /// The place of a line of a slot, 1 to 16, where it is cached. Looks at the four ways of its set.
    #[tactic(auto, using(crate::proofs::Search::none_in_set, crate::proofs::Search::some_in_set))]
    pub fn find(&self, slot: u8, line: u32) -> Option<u32>
        requires { 1 ≤ slot }
        ensures place { result ≡ place_of_line self.now.ways slot line }
        ensures filled { IfSome result (IsFilled self.now.ways) }
    {
        let first = first_place(line);
        let way = way_of(&self.ways[first..first + 4], slot, line)?;
        Some((first + way) as u32)
    }

    /// The bytes in a place that is filled.
    pub fn bytes(&self, place: u32) -> &[u8; 32]
        requires { IsFilled self.now.ways place }
        ensures { result.now ≡ (way_at self.now.ways place).bytes }
    {
        self.ways[place as usize].bytes.get()
    }

    /// The bytes in a place that is filled, to be written: the line is dirty then.
    pub fn bytes_mut(&mut self, place: u32) -> &mut [u8; 32]
        requires { IsFilled self.old.ways place }
        ensures* writes_back { sem 𝓛 (LendsBytes self.entry place result) }
        ensures value { result.now ≡ (way_at self.old.ways place).bytes }
    {
        self.ways[place as usize].bytes_mut()
    }

    /// The lowest free way of a line's set.
    #[tactic(auto, using(crate::proofs::Search::free_is_low), unfolding(crate::specs::Ways::free_in_set))]
    fn free_way(&self, line: u32) -> Option<usize>
        ensures value { result ≡ free_in_set self.now.ways line }
        ensures low { IfSome result (λ way. way < 4) }
    {
        let first = first_place(line);
        first_free(&self.ways[first..first + 4])
    }

    /// Caches a line of a slot, 1 to 16, that isn't cached: it is clean. Where its set is full, the
    /// line at the set's pointer is taken out and answered. Looks at the four ways of the set.
    pub fn place(&mut self, slot: u8, line: u32, bytes: &[u8; 32]) -> Option<Victim>
        requires some { 1 ≤ slot }
        requires known { slot ≤ 16 }
        requires inside { line < 2 ^ 15 }
        requires absent { place_of_line self.old.ways slot line ≡ None }
        ensures cache { self.new ≡ cache_with_line self.old slot line bytes.now }
        ensures victim { result ≡ victim_for self.old line }
        ensures full { IsSome result ↔ IsFull self.old.ways line }
        ensures place { place_of_line self.new.ways slot line ≡ Some (place_for self.old.ways self.old.pointers line) }
        ensures range { IfSome result IsLine }
        ensures lines { BringsIn self.old.ways self.new.ways slot line bytes.now result }
    {
        let first = first_place(line);
        let way = Way::new(slot, line, bytes);
        match self.free_way(line) {
            Some(free) => {
                self.ways[first + free] = way;
                None
            }
            None => {
                let set = line as usize % 32;
                let pointer = self.pointers[set] % 4;
                let place = first + usize::from(pointer);
                let victim = self.ways[place].victim();
                self.ways[place] = way;
                self.pointers[set] = (pointer + 1) % 4;
                Some(victim)
            }
        }
    }

    /// Takes the least line of a page of a slot, 1 to 16, out of the cache: page p has the 128 lines
    /// from 128 p on. None where none is cached, and all is then as it was. Walks all places.
    pub fn take_page(&mut self, slot: u8, page: u32) -> Option<Victim>
        requires { 1 ≤ slot }
        ensures none { IsNone result ↔ HasNoLine self.old.ways slot page }
        ensures same { IfNone result (self.new ≡ self.old) }
        ensures least { IfSome result (λ victim. TakesLeast self.old self.new slot page victim) }
    {
        let place = least_of_page(&self.ways, slot, page)?;
        let victim = self.ways[place].victim();
        self.ways[place] = Way::free();
        Some(victim)
    }

    /// Takes all lines of a slot, 1 to 16, out of the cache, also those that are still to be written
    /// back. Walks all places.
    pub fn drop_slot(&mut self, slot: u8)
        requires { 1 ≤ slot }
        ensures cache { self.new ≡ record self.old { ways = without_slot slot self.old.ways } }
        ensures lines { DropsSlot self.old.ways self.new.ways slot }
    {
        drop_lines(&mut self.ways, slot);
    }
}

/// The first place of a line's set.
fn first_place(line: u32) -> usize
    ensures { result ≡ first_of line }
{
    4 * (line as usize % 32)
}

/// Which way of a set holds a line.
fn way_of(set: &[Way], slot: u8, line: u32) -> Option<usize>
    ensures { result ≡ position (is_of slot line) set.now }
{
    set.iter().position(|way| way.is_of(slot, line))
}

/// The lowest free way of a set.
fn first_free(set: &[Way]) -> Option<usize>
    ensures { result ≡ position is_free set.now }
{
    set.iter().position(|way| way.is_free())
}

/// The place with the least line of a page.
fn least_of_page(ways: &[Way], slot: u8, page: u32) -> Option<usize>
    ensures { IsLeastAmong ways.now slot page (length ways.now) result }
{
    let mut least = None;
    for place in 0..ways.len() {
        least = lesser(ways, slot, page, least, place);
    }
    least
}

/// The place with the least line of a page, where one more place is looked at.
fn lesser(ways: &[Way], slot: u8, page: u32, least: Option<usize>, place: usize) -> Option<usize>
    requires within { place < length ways.now }
    requires least { IsLeastAmong ways.now slot page place least }
    ensures { IsLeastAmong ways.now slot page (place + 1) result }
{
    if !ways[place].is_in_page(slot, page) {
        return least;
    }
    match least {
        Some(least) => Some(if ways[place].line < ways[least].line {
            place
        } else {
            least
        }),
        None => Some(place),
    }
}

#[tactic(auto, using(std::proofs::lemmas::List::Edits::map_over_more))]
fn drop_lines(ways: &mut [Way], slot: u8)
    ensures { ways.new ≡ without_slot slot ways.old }
{
    for way in ways.iter_mut() {
        *way = without(slot, way);
    }
}

fn without(slot: u8, way: &Way) -> Way
    ensures { result ≡ free_if slot way.now }
{
    if way.slot == slot { Way::free() } else { *way }
}

#[tactic(auto, unfolding(crate::specs::Ways::no_ways))]
fn free_ways(alloc: Global) -> Result<Vec<Way>, NoMemory>
    ensures { IfOk result (λ ways. ways.items ≡ no_ways) }
{
    Ok(vec![in alloc; Way::free(); 128]?)
}

#[tactic(auto, unfolding(crate::specs::Ways::first_pointers))]
fn first_pointers() -> [u8; 32]
    ensures { result ≡ first_pointers_of_sets }
{
    [0; 32]
}
