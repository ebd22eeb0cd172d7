ghost use Rattle.std.specs.Prelude.{◌≡◌, ◌≤◌, ◌<◌, ◌+◌, IfOk, slice_set};
ghost use Rattle.line_ram.specs.Bytes.{HoldsRange};
ghost use Rattle.xom_versions.specs.Store.{HoldsArea, area_size, build_room, line_limit, raise_room, version_room};
ghost use Rattle.xom_versions.specs.Versions.{with_hashes};
ghost use Rattle.slot_stores.specs.SlotStores.{blank_stores, store_at};

use line_ram::LineRam;
use std::alloc::Global;
use std::marker::Model;
use xom_base::NoMemory;
use xom_journal::Journal;
use xom_versions::{Torn, VersionStore};

/// The version stores of the 16 slots. Contracts see a list of 17 places, of which place 0, the null
/// compartment's, is always blank.
#[derive(Drop)]
pub struct StoreList<V: VersionStore> {
    slots: Vec<V>,
}

impl<V: VersionStore> Model for StoreList<V> {
    ghost use Rattle.std.specs.Prelude.{List, ◌∷◌, ◌≡◌, length, map};
    ghost use Rattle.xom_versions.specs.Store.{Store};

    ghost Value = { List Store };

    ghost view = { λ s. V.versions.blank_store ∷ map V.as_store s.slots.items };

    ghost invariant = { λ s. length s.slots.items ≡ 16 };
}

impl<V: VersionStore> StoreList<V> {
    /// A store before any guest in each slot.
    pub fn new(alloc: Global) -> Result<StoreList<V>, NoMemory>
        ensures { IfOk result (λ stores. stores ≡ blank_stores V.versions) }
    {
        let mut slots = Vec::with_capacity(alloc, 16)?;
        for _place in 0..16u8 {
            slots.push(V::blank(alloc)?)?;
        }
        Ok(StoreList { slots })
    }

    /// Sets the versions of the new guest of a slot, 1 to 16, whose image has so many lines. A store in
    /// RAM takes the area of 411,904 bytes at this address for itself.
    pub fn build(
        &mut self,
        slot: u8,
        area: u32,
        lines: u32,
        ram: &mut LineRam,
        journal: &mut Journal,
    )
        requires some { 1 ≤ slot }
        requires known { slot ≤ 16 }
        requires area { HoldsRange ram.old area area_size }
        requires lines { lines ≤ line_limit }
        requires room { build_room ≤ journal.old.spare }
        ensures stores { self.new ≡ slice_set self.old slot (V.versions.store_after_build area lines ram.old) }
        ensures ram { ram.new ≡ V.versions.ram_after_build area lines ram.old }
        ensures entries { journal.new.entries
            ≡ with_hashes journal.old.entries (V.versions.texts_of_build area lines ram.old) }
        ensures spare { journal.old.spare ≤ journal.new.spare + build_room }
    {
        self.slots[usize::from(slot) - 1].build(area, lines, ram, journal);
    }

    /// The version of a line of a slot, 1 to 16.
    pub fn version(
        &self,
        slot: u8,
        line: u32,
        ram: &LineRam,
        journal: &mut Journal,
    ) -> Result<u64, Torn>
        requires some { 1 ≤ slot }
        requires known { slot ≤ 16 }
        requires area { HoldsArea ram.now (store_at self.now slot) }
        requires line { line < line_limit }
        requires room { version_room ≤ journal.old.spare }
        ensures answer { result ≡ V.versions.answer_of_version (store_at self.now slot) line ram.now }
        ensures entries { journal.new.entries
            ≡ with_hashes journal.old.entries (V.versions.texts_of_version (store_at self.now slot) line ram.now) }
        ensures spare { journal.old.spare ≤ journal.new.spare + version_room }
    {
        self.slots[usize::from(slot) - 1].version(line, ram, journal)
    }

    /// Raises the version of a line of a slot, 1 to 16, and gives the new one.
    pub fn raise(
        &mut self,
        slot: u8,
        line: u32,
        ram: &mut LineRam,
        journal: &mut Journal,
    ) -> Result<u64, Torn>
        requires some { 1 ≤ slot }
        requires known { slot ≤ 16 }
        requires area { HoldsArea ram.old (store_at self.old slot) }
        requires line { line < line_limit }
        requires room { raise_room ≤ journal.old.spare }
        ensures answer { result ≡ V.versions.answer_of_raise (store_at self.old slot) line ram.old }
        ensures stores { self.new ≡ slice_set self.old slot (V.versions.store_after_raise (store_at self.old slot) line ram.old) }
        ensures ram { ram.new ≡ V.versions.ram_after_raise (store_at self.old slot) line ram.old }
        ensures entries { journal.new.entries
            ≡ with_hashes journal.old.entries (V.versions.texts_of_raise (store_at self.old slot) line ram.old) }
        ensures spare { journal.old.spare ≤ journal.new.spare + raise_room }
    {
        self.slots[usize::from(slot) - 1].raise(line, ram, journal)
    }
}
