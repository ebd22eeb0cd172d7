ghost use Rattle.std.specs.Prelude.{◌≡◌, ◌≤◌, ◌+◌, ◌*◌, IfOk, false, replicate};
ghost use Rattle.xom_base.specs.Frames.{frame_size};
ghost use Rattle.session_table.specs.Sessions.{is_live};
ghost use Rattle.xom_model.specs.Access.{after_leaving, after_stop};
ghost use Rattle.xom_model.specs.State.{core_at_start};

use line_cache::LineCache;
use line_ram::LineRam;
use page_map::PageMap;
use session_table::{SlotState, Table};
use slot_keys::KeyTable;
use slot_stores::StoreList;
use std::alloc::Global;
use std::marker::Model;
use tag_regs::Cells;
use xom_base::{Entry, Key256, NoMemory, Rule};
use xom_journal::Journal;
use xom_versions::VersionStore;

/// The room that one event may take of the journal, in bytes of spare.
pub const EVENT_ROOM: u64 = 1_048_576;

const _: () = prove!(EVENT_ROOM == 1_048_576);

/// The parts of the processor that guests and operations change, with the RAM that it works on.
#[derive(Drop)]
pub struct Core<V: VersionStore> {
    /// The bytes of RAM, which the kernel and the bus may write.
    pub ram: LineRam,
    /// The registers.
    pub cells: Cells,
    /// Which frame holds each private page.
    pub pages: PageMap,
    /// The private lines that are on chip.
    pub cache: LineCache,
    /// The sessions of the slots.
    pub table: Table,
    /// How often each private line was sealed.
    pub stores: StoreList<V>,
    /// The keys of the slots' guests, made ready once an install.
    pub keys: KeyTable,
    /// What was recorded.
    pub journal: Journal,
    /// The key of this machine.
    pub machine: Key256,
    /// The number of the machine's start.
    pub boot: u64,
}

impl<V: VersionStore> Model for Core<V> {
    ghost use Rattle.xom_private.specs.Cores.{PartsFit, Whole};

    ghost Value = { Whole };

    ghost view = { λ c. record { core = record { cells = c.cells; sessions = c.table.list; stores = c.stores; pages = c.pages; ways = c.cache.ways; pointers = c.cache.pointers; ram = c.ram; machine = c.machine; boot = c.boot; installs = c.table.installs; entries = c.journal.entries }; spare = c.journal.spare } };

    ghost invariant = { λ c. PartsFit c.table.list c.pages c.cache.ways c.ram c.stores c.keys c.boot };
}

impl<V: VersionStore> Core<V> {
    /// Power-on: so many frames of RAM, 4 to 8,192, of zeros; all cells zero, all slots free, nothing
    /// mapped or cached, each store blank, and an empty journal with nothing spare.
    pub fn new(alloc: Global, frames: u32, machine: &Key256, boot: u64) -> Result<Core<V>, NoMemory>
        requires few { 4 ≤ frames }
        requires many { frames ≤ 8192 }
        ensures core { IfOk result (λ c. c.core ≡ core_at_start V.versions machine.now boot (replicate (frames * frame_size) 0)) }
        ensures room { IfOk result (λ c. c.spare ≡ 0) }
    {
        Ok(Core {
            ram: LineRam::new(alloc, frames)?,
            cells: Cells::new(),
            pages: PageMap::new(alloc)?,
            cache: LineCache::new(alloc)?,
            table: Table::new(alloc)?,
            stores: StoreList::new(alloc)?,
            keys: KeyTable::new(alloc)?,
            journal: Journal::new(alloc),
            machine: *machine,
            boot,
        })
    }

    /// The guest of a slot, 1 to 16, leaves for good, ended or stopped: no cell, no cached line and no
    /// page is left of it.
    #[tactic(auto, unfolding(xom_model::specs::Access::without_guest))]
    pub fn leave(&mut self, slot: u8, last: SlotState)
        requires some { 1 ≤ slot }
        requires known { slot ≤ 16 }
        requires dead { is_live last ≡ false }
        ensures core { self.new.core ≡ after_leaving self.old.core slot last }
        ensures room { self.new.spare ≡ self.old.spare }
    {
        let session = *self.table.session(slot);
        self.cells.scrub(slot);
        self.cache.drop_slot(slot);
        self.pages.drop_slot(slot);
        *self.table.session_mut(slot) = session.left(last);
    }

    /// Stops the guest of a slot, 1 to 16, for good by a rule: no cell, no cached line and no page is
    /// left of it, and a Stop is recorded. Uses at most 100 bytes of spare.
    pub fn stop(&mut self, slot: u8, rule: Rule)
        requires some { 1 ≤ slot }
        requires known { slot ≤ 16 }
        requires room { 100 ≤ self.old.spare }
        ensures core { self.new.core ≡ after_stop self.old.core slot rule }
        ensures room { self.old.spare ≤ self.new.spare + 100 }
    {
        let install = self.table.session(slot).install;
        self.leave(slot, SlotState::Stopped(rule));
        self.journal.push(&Entry::Stop { install, rule });
    }
}
