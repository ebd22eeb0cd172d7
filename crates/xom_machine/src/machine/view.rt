ghost use Rattle.std.specs.Prelude.{◌≡◌, ◌≤◌, ◌<◌, map, slice_get};
ghost use Rattle.mips_plain.specs.Instruction.{is_signal_ready as is_ready_of};
ghost use Rattle.tag_regs.specs.TaggedCells.{cell_at};
ghost use Rattle.xom_model.specs.Seen.{open_cell, ram_byte as ram_byte_of, shown_cell, shown_slot};
ghost use Rattle.xom_machine.specs.Shown.{shown_slot_at};

use line_ram::LineRam;
use session_table::{Session, SlotView, Table};
use std::marker::Model;
use tag_regs::Cells;
use xom_base::Cause;

/// What a kernel is told of the machine: no value of another compartment, and no private byte.
#[derive(Drop)]
pub struct View<'a> {
    cells: &'a Cells,
    table: &'a Table,
    ram: &'a LineRam,
    status: u32,
    cause: Cause,
    who: u8,
    events: u64,
}

impl<'a> Model for View<'a> {
    ghost use Rattle.std.specs.Prelude.{map};
    ghost use Rattle.xom_model.specs.Seen.{View as Shown, shown_cell, shown_slot};

    ghost Value = { Shown };

    ghost view = { λ v. record { cells = map shown_cell v.cells.now; slots = map shown_slot v.table.now.list; status = v.status; cause = v.cause; who = v.who; ram = v.ram.now; events = v.events } };
}

impl<'a> View<'a> {
    /// What is shown of these parts.
    pub(crate) fn new(
        cells: &'a Cells,
        table: &'a Table,
        ram: &'a LineRam,
        status: u32,
        cause: Cause,
        who: u8,
        events: u64,
    ) -> View<'a>
        ensures { result ≡ record { cells = map shown_cell cells.now; slots = map shown_slot table.now.list; status = status; cause = cause; who = who; ram = ram.now; events = events } }
    {
        View {
            cells,
            table,
            ram,
            status,
            cause,
            who,
            events,
        }
    }

    /// The value of a cell, 1 to 33, of the null compartment. None exactly where its tag isn't 0.
    pub fn cell(&self, reg: u8) -> Option<u32>
        requires some { 1 ≤ reg }
        requires known { reg < 34 }
        ensures { result ≡ open_cell (cell_at self.now.cells reg) }
    {
        let (value, tag) = self.cells.get(reg);
        if tag == 0 { Some(value) } else { None }
    }

    /// The tag of a cell, 1 to 33: 0 for the null compartment, else a slot.
    pub fn tag(&self, reg: u8) -> u8
        requires some { 1 ≤ reg }
        requires known { reg < 34 }
        ensures { result ≡ (cell_at self.now.cells reg).tag }
    {
        let (_, tag) = self.cells.get(reg);
        tag
    }

    /// What is told of a slot, 1 to 16.
    pub fn slot(&self, slot: u8) -> SlotView
        requires some { 1 ≤ slot }
        requires known { slot ≤ 16 }
        ensures { result ≡ shown_slot_at self.now.slots slot }
    {
        show(self.table.session(slot))
    }

    /// The status of the last operation or kernel write.
    pub fn status(&self) -> u32
        ensures { result ≡ self.now.status }
    {
        self.status
    }

    /// Why a guest left last.
    pub fn cause(&self) -> Cause
        ensures { result ≡ self.now.cause }
    {
        self.cause
    }

    /// From which slot a guest left last, 0 before any.
    pub fn who(&self) -> u8
        ensures { result ≡ self.now.who }
    {
        self.who
    }

    /// A byte of RAM. None exactly where the address is outside.
    pub fn ram_byte(&self, address: u32) -> Option<u8>
        ensures { result ≡ ram_byte_of self.now address }
    {
        byte_of(self.ram, address)
    }

    /// How many events were made.
    pub fn events(&self) -> u64
        ensures { result ≡ self.now.events }
    {
        self.events
    }
}

/// What is told of a session: no key, and not where the guest stands.
fn show(session: &Session) -> SlotView
    ensures { result ≡ shown_slot session.now }
{
    let session = *session;
    SlotView {
        state: session.state,
        install: session.install,
        id: session.id,
        entry: session.entry,
        lines: session.lines,
        mask: session.mask,
        epoch: session.epoch,
        signal_ready: is_signal_ready(session.handler, session.saved),
    }
}

/// Whether a signal can be delivered: there is a handler, and no pair is kept.
fn is_signal_ready(handler: u32, saved: Option<(u32, u32)>) -> bool
    ensures { result ≡ is_ready_of handler saved }
{
    handler != 0 && saved.is_none()
}

/// A byte of RAM, none outside it.
fn byte_of(ram: &LineRam, address: u32) -> Option<u8>
    ensures { result ≡ slice_get ram.now address }
{
    if !ram.holds(address, 1) {
        return None;
    }
    let mut byte = [0; 1];
    ram.read(address, &mut byte);
    Some(byte[0])
}
