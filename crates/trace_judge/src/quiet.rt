ghost use Rattle.std.specs.Prelude.{◌≡◌, ◌<◌, ◌+◌, ◌^◌, ◌++◌, [], ◌∷◌, List, ℕ, length, true};
ghost use Rattle.xom_base.specs.declared.entry.Entry.{Entry as AnEntry};
ghost use Rattle.trace_judge.specs.GuestWatch.{IsFed, IsInstall};
ghost use Rattle.trace_judge.specs.Judging.{HasSearched, JudgeKeeps};
ghost use Rattle.trace_judge.specs.Numbers.{install_count, may_stand as may_stand_by};

use crate::guests::Guests;
use crate::searches::Searches;
use std::alloc::Global;
use xom_base::Entry;
use xom_owners::OwnerList;

/// Feeds the searches, where that wants no memory.
pub fn search(searches: &mut Searches, entry: &Entry)
    requires { JudgeKeeps entry.now → ⊥ }
    ensures { (sealed : List (List ℕ × List ℕ)) → (es : List AnEntry) → length es + 1 < 2 ^ 64 → HasSearched sealed searches.old es → HasSearched sealed searches.new (es ++ entry.now ∷ []) }
{
    match searches.feed(entry) {
        Ok(()) => {}
        Err(_) => unreachable!(),
    }
}

/// Feeds the guests, where that wants no memory.
pub fn watch(guests: &mut Guests, alloc: Global, owners: &OwnerList, entry: &Entry)
    requires { IsInstall entry.now → ⊥ }
    ensures { (es : List AnEntry) → length es + 1 < 2 ^ 64 → may_stand_by (install_count es) entry.now ≡ true → IsFed owners.now guests.old.items.items es → IsFed owners.now guests.new.items.items (es ++ entry.now ∷ []) }
{
    match guests.feed(alloc, owners, entry) {
        Ok(()) => {}
        Err(_) => unreachable!(),
    }
}
