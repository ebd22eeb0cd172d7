ghost use Rattle.std.specs.Prelude.{◌≡◌, ◌≤◌, ◌<◌, ◌+◌, None, IfSome};
ghost use Rattle.line_cache.specs.Lines.{IsLine};
ghost use Rattle.line_cache.specs.Ways.{place_for, place_of_line, victim_for};
ghost use Rattle.xom_versions.specs.Store.{line_limit};
ghost use Rattle.xom_model.specs.Access.{reach_after_placing};
ghost use Rattle.xom_model.specs.Holds.{IsLive};
ghost use Rattle.xom_model.specs.State.{page_of};
ghost use Rattle.xom_private.specs.Cores.{FreeAreClean, IsMapped};
ghost use Rattle.xom_private.specs.Settling.{access_after_settling as settled_by_model, cache_of, core_with_new_line as filled_with, to_write};

use crate::Core;
use line_cache::Victim;
use xom_model::reach::Reach;
use xom_versions::VersionStore;

impl<V: VersionStore> Core<V> {
    /// Puts a line of a slot that isn't cached into its way. Answers the place, and what is to be
    /// written back of the line that stood there.
    #[tactic(auto, unfolding(crate::specs::Settling::core_with_new_line))]
    fn fill(&mut self, slot: u8, line: u32, bytes: &[u8; 32]) -> (u32, Option<Victim>)
        requires some { 1 ≤ slot }
        requires known { slot ≤ 16 }
        requires line { line < line_limit }
        requires mapped { IsMapped self.old.core.pages slot (page_of line) }
        requires absent { place_of_line self.old.core.ways slot line ≡ None }
        ensures core { self.new.core ≡ filled_with self.old.core slot line bytes.now }
        ensures place { result.0 ≡ place_for self.old.core.ways self.old.core.pointers line }
        ensures victim { result.1 ≡ to_write (victim_for (cache_of self.old.core) line) }
        ensures range { IfSome result.1 IsLine }
        ensures clean { FreeAreClean self.old.core.ways }
        ensures live { IfSome result.1 (λ victim. IsLive self.new.core victim.slot) }
        ensures room { self.new.spare ≡ self.old.spare }
    {
        let victim = self.cache.place(slot, line, bytes);
        match self.cache.find(slot, line) {
            Some(place) => (place, dirty_one(victim)),
            None => unreachable!(),
        }
    }

    /// Writes back what a new line of a slot pushed out. Where its version is torn, its own slot is
    /// stopped, which need not be the one that runs.
    fn settle(&mut self, slot: u8, place: u32, victim: Option<Victim>) -> Reach
        requires range { IfSome victim IsLine }
        requires live { IfSome victim (λ v. IsLive self.old.core v.slot) }
        requires room { 5100 ≤ self.old.spare }
        ensures core { self.new.core ≡ (settled_by_model V.versions self.old.core slot place victim).0 }
        ensures reach { result ≡ (settled_by_model V.versions self.old.core slot place victim).1 }
        ensures room { self.old.spare ≤ self.new.spare + 5100 }
    {
        let Some(victim) = victim else {
            return Reach::Ready(place);
        };
        match self.write_back(victim.slot, victim.line, &victim.bytes) {
            Ok(()) => Reach::Ready(place),
            Err(rule) => {
                self.stop(victim.slot, rule);
                if victim.slot == slot {
                    Reach::Stopped(rule)
                } else {
                    Reach::Ready(place)
                }
            }
        }
    }

    /// Caches a line of a slot that isn't cached, and writes back what it pushes out.
    pub(crate) fn place(&mut self, slot: u8, line: u32, bytes: &[u8; 32]) -> Reach
        requires some { 1 ≤ slot }
        requires known { slot ≤ 16 }
        requires line { line < line_limit }
        requires mapped { IsMapped self.old.core.pages slot (page_of line) }
        requires absent { place_of_line self.old.core.ways slot line ≡ None }
        requires room { 5100 ≤ self.old.spare }
        ensures core { self.new.core ≡ (reach_after_placing V.versions self.old.core slot line bytes.now).0 }
        ensures reach { result ≡ (reach_after_placing V.versions self.old.core slot line bytes.now).1 }
        ensures room { self.old.spare ≤ self.new.spare + 5100 }
    {
        let (place, victim) = self.fill(slot, line, bytes);
        self.settle(slot, place, victim)
    }
}

/// A line that was pushed out, where it is still to be written back.
fn dirty_one(victim: Option<Victim>) -> Option<Victim>
    ensures { result ≡ to_write victim }
{
    match victim {
        Some(line) => { if line.dirty { Some(line) } else { None } }
        None => None,
    }
}
