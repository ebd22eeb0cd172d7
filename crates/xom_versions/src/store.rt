ghost use Rattle.std.specs.Prelude.{◌≡◌, ◌≤◌, ◌<◌, ◌+◌, ◌++◌, ℕ, List, IfOk, map};
ghost use Rattle.xom_base.specs.declared.entry.Entry.{Entry};
ghost use Rattle.line_ram.specs.Bytes.{HoldsRange};
ghost use Rattle.xom_versions.specs.Store.{HoldsArea, Store, area_size, build_room, hash_entry, line_limit, raise_room, version_room};
ghost use Rattle.xom_versions.specs.Versions.{Raised, RaisesInTheOpen, VersionLaw, Versions};

use line_ram::LineRam;
use std::alloc::Global;
use xom_base::NoMemory;
use xom_journal::Journal;

/// The numbers were changed behind the processor's back.
#[derive(Clone, Copy)]
pub struct Torn {
    /// The level of the first block, from level 4 down to 0, that isn't the one that was written.
    pub level: u8,
}

/// The versions of a guest's 32,768 lines.
///
/// What each call answers, hashes and leaves is told by `versions`, as functions of what is seen of
/// the store, of the arguments and of the bytes of RAM. `law` says that these functions serve, and
/// `in_the_open` that a store hides nothing in RAM. No call takes memory but `blank`.
pub trait VersionStore: Sized + Drop {
    // What is seen of a store.
    ghost as_store: { Self → Store };

    // What this kind of store answers, hashes and leaves.
    ghost versions: { Versions };

    // For which numbers a store stands in a journal.
    ghost Stands: { Store → List Entry → (ℕ → ℕ) → Type 0 };

    // RAM after a raise that was answered, told by what anybody can see: area, line and RAM.
    ghost raised_ram: { Raised };

    /// A store before any guest.
    fn blank(alloc: Global) -> Result<Self, NoMemory>
        ensures { IfOk result (λ store. as_store store ≡ versions.blank_store) };

    /// Sets the versions of a new guest, whose image has so many lines: its lines begin at 1, all
    /// others at 0. A store in RAM takes the area of 411,904 bytes at this address for itself.
    fn build(&mut self, area: u32, lines: u32, ram: &mut LineRam, journal: &mut Journal)
        requires area { HoldsRange ram.old area area_size }
        requires lines { lines ≤ line_limit }
        requires room { build_room ≤ journal.old.spare }
        ensures store { as_store self.new ≡ versions.store_after_build area lines ram.old }
        ensures ram { ram.new ≡ versions.ram_after_build area lines ram.old }
        ensures entries { journal.new.entries
            ≡ journal.old.entries ++ map hash_entry (versions.texts_of_build area lines ram.old) }
        ensures spare { journal.old.spare ≤ journal.new.spare + build_room };

    /// The version of a line, below 32,768.
    fn version(&self, line: u32, ram: &LineRam, journal: &mut Journal) -> Result<u64, Torn>
        requires area { HoldsArea ram.now (as_store self.now) }
        requires line { line < line_limit }
        requires room { version_room ≤ journal.old.spare }
        ensures answer { result ≡ versions.answer_of_version (as_store self.now) line ram.now }
        ensures entries { journal.new.entries
            ≡ journal.old.entries ++ map hash_entry (versions.texts_of_version (as_store self.now) line ram.now) }
        ensures spare { journal.old.spare ≤ journal.new.spare + version_room };

    /// Raises the version of a line, below 32,768, by 1 modulo 2^64, and gives the new one.
    fn raise(&mut self, line: u32, ram: &mut LineRam, journal: &mut Journal) -> Result<u64, Torn>
        requires area { HoldsArea ram.old (as_store self.old) }
        requires line { line < line_limit }
        requires room { raise_room ≤ journal.old.spare }
        ensures answer { result ≡ versions.answer_of_raise (as_store self.old) line ram.old }
        ensures store { as_store self.new ≡ versions.store_after_raise (as_store self.old) line ram.old }
        ensures ram { ram.new ≡ versions.ram_after_raise (as_store self.old) line ram.old }
        ensures entries { journal.new.entries
            ≡ journal.old.entries ++ map hash_entry (versions.texts_of_raise (as_store self.old) line ram.old) }
        ensures spare { journal.old.spare ≤ journal.new.spare + raise_room };

    // The functions serve: a line's number is answered, and raised, as long as no two hashed texts
    // have one digest.
    ghost law: { VersionLaw versions Stands };

    // A raise leaves nothing else in RAM.
    ghost in_the_open: { RaisesInTheOpen versions raised_ram };
}
