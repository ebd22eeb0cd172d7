ghost use Rattle.std.specs.Prelude.{◌≡◌, ◌≤◌, ◌++◌, IfOk, OnOk};
ghost use Rattle.std.specs.List.{flat_map};
ghost use Rattle.tag_regs.specs.TaggedCells.{cell_at};
ghost use Rattle.xom_model.specs.Seen.{open_cell};
ghost use Rattle.xom_machine.specs.Shown.{shown_slot_at};
ghost use Rattle.xom_debug.specs.Commands.{CommandKeepsRules};
ghost use Rattle.xom_debug.specs.DebugTexts.{byte_at as byte_at_of, bytes_from as bytes_from_of, cell_line, cell_text, event_text, noted_line, op_word as op_word_of, ram_line, range_text, said, slot_line, state_word as state_word_of};

use crate::command::Command;
use crate::session::{Noted, Session};
use session_table::SlotState;
use std::alloc::Global;
use text_pieces::{push_decimal, push_decimal64, push_hex, push_hex8, push_text};
use xom_base::{Event, NoMemory, Op};
use xom_machine::View;

/// Adds what a command prints. The commands that make events print nothing.
pub fn show(
    alloc: Global,
    text: &mut Vec<u8>,
    command: Command,
    view: &View,
    session: &Session,
) -> Result<(), NoMemory>
    requires { CommandKeepsRules command }
    ensures { OnOk result (text.new.items ≡ text.old.items ++ said command session.now.last.items view.now) }
{
    match command {
        Command::Step(_) => Ok(()),
        Command::UntilTrap => Ok(()),
        Command::Reg(reg) => push_cell(text, view, reg),
        Command::Slot(slot) => push_slot(text, view, slot),
        Command::Last => push_last(text, session),
        Command::Ram { address, count } => push_ram(alloc, text, view, address, count),
    }
}

/// Adds a line on a register: its value, where it belongs to the null compartment, else its slot.
fn push_cell(text: &mut Vec<u8>, view: &View, reg: u8) -> Result<(), NoMemory>
    requires some { 1 ≤ reg }
    requires known { reg ≤ 33 }
    ensures { OnOk result (text.new.items ≡ text.old.items ++ cell_line reg (cell_at view.now.cells reg)) }
{
    push_text(text, "$")?;
    push_decimal(text, u32::from(reg))?;
    push_text(text, " ")?;
    push_owner(text, view.cell(reg), view.tag(reg))?;
    push_text(text, "\n")
}

/// Adds the value of a cell of the null compartment, or the slot to which it belongs.
fn push_owner(text: &mut Vec<u8>, value: Option<u32>, tag: u8) -> Result<(), NoMemory>
    ensures { OnOk result (text.new.items ≡ text.old.items ++ cell_text value tag) }
{
    match value {
        Some(value) => {
            push_text(text, "null ")?;
            push_hex8(text, value)
        }
        None => {
            push_text(text, "slot ")?;
            push_decimal(text, u32::from(tag))
        }
    }
}

/// Adds a line on a slot: where its guest stands, and its epoch.
fn push_slot(text: &mut Vec<u8>, view: &View, slot: u8) -> Result<(), NoMemory>
    requires some { 1 ≤ slot }
    requires known { slot ≤ 16 }
    ensures { OnOk result (text.new.items ≡ text.old.items ++ slot_line slot (shown_slot_at view.now.slots slot)) }
{
    let shown = view.slot(slot);
    push_text(text, "slot ")?;
    push_decimal(text, u32::from(slot))?;
    push_text(text, " ")?;
    push_text(text, state_word(shown.state))?;
    push_text(text, " epoch ")?;
    push_decimal64(text, shown.epoch)?;
    push_text(text, "\n")
}

/// The name of a state, without the rule of a stopped guest.
fn state_word(state: SlotState) -> &'static str
    ensures { result.now ≡ state_word_of state }
{
    match state {
        SlotState::Free => "Free",
        SlotState::Fresh => "Fresh",
        SlotState::Running => "Running",
        SlotState::Paused => "Paused",
        SlotState::Ended => "Ended",
        SlotState::Stopped(_) => "Stopped",
    }
}

/// Adds the events that are kept, a line each.
fn push_last(text: &mut Vec<u8>, session: &Session) -> Result<(), NoMemory>
    ensures { OnOk result (text.new.items ≡ text.old.items ++ flat_map noted_line session.now.last.items) }
{
    let (front, back) = session.last.as_slices();
    push_noted(text, front)?;
    push_noted(text, back)
}

/// Adds these events, a line each.
fn push_noted(text: &mut Vec<u8>, events: &[Noted]) -> Result<(), NoMemory>
    ensures { OnOk result (text.new.items ≡ text.old.items ++ flat_map noted_line events.now) }
{
    for noted in events {
        push_line(text, noted)?;
    }
    Ok(())
}

/// Adds a line on an event: its number, and what it was.
fn push_line(text: &mut Vec<u8>, noted: &Noted) -> Result<(), NoMemory>
    ensures { OnOk result (text.new.items ≡ text.old.items ++ noted_line noted.now) }
{
    push_decimal64(text, noted.number)?;
    push_text(text, " ")?;
    push_event(text, noted.event)?;
    push_text(text, "\n")
}

/// Adds what an event was.
fn push_event(text: &mut Vec<u8>, event: Event) -> Result<(), NoMemory>
    ensures { OnOk result (text.new.items ≡ text.old.items ++ event_text event) }
{
    match event {
        Event::Do(op) => {
            push_text(text, "do ")?;
            push_text(text, op_word(op))
        }
        Event::Write { address, length } => {
            push_text(text, "write ")?;
            push_range(text, address, length)
        }
        Event::Null => push_text(text, "null"),
        Event::Guest { .. } => push_text(text, "guest"),
        Event::Poke { address, length } => {
            push_text(text, "poke ")?;
            push_range(text, address, length)
        }
    }
}

/// Adds an address and a number of bytes, both in decimal.
fn push_range(text: &mut Vec<u8>, address: u32, count: u32) -> Result<(), NoMemory>
    ensures { OnOk result (text.new.items ≡ text.old.items ++ range_text address count) }
{
    push_decimal(text, address)?;
    push_text(text, " ")?;
    push_decimal(text, count)
}

/// The word of an operation in scripts.
fn op_word(op: Op) -> &'static str
    ensures { result.now ≡ op_word_of op }
{
    match op {
        Op::Install { .. } => "install",
        Op::Enter { .. } => "enter",
        Op::Resume { .. } => "resume",
        Op::Save { .. } => "save",
        Op::Restore { .. } => "restore",
        Op::Map { .. } => "map",
        Op::Unmap { .. } => "unmap",
        Op::SetReg { .. } => "setreg",
        Op::Kill { .. } => "kill",
        Op::Out { .. } => "out",
        Op::Halt => "halt",
    }
}

/// Adds a line of bytes of RAM.
fn push_ram(
    alloc: Global,
    text: &mut Vec<u8>,
    view: &View,
    address: u32,
    count: u8,
) -> Result<(), NoMemory>
    ensures { OnOk result (text.new.items ≡ text.old.items ++ ram_line view.now address count) }
{
    let bytes = bytes_from(alloc, view, address, count)?;
    push_hex(text, bytes.as_slice())?;
    push_text(text, "\n")
}

/// So many bytes of RAM from an address on.
fn bytes_from(alloc: Global, view: &View, address: u32, count: u8) -> Result<Vec<u8>, NoMemory>
    ensures { IfOk result (λ bytes. bytes.items ≡ bytes_from_of view.now address count) }
{
    let mut bytes = Vec::new(alloc);
    for i in 0..count {
        bytes.push(byte_at(view, u64::from(address) + u64::from(i)))?;
    }
    Ok(bytes)
}

/// The byte of RAM at an address, 0 outside RAM and past the last address.
fn byte_at(view: &View, address: u64) -> u8
    ensures { result ≡ byte_at_of view.now address }
{
    match u32::try_from(address) {
        Ok(address) => view.ram_byte(address).unwrap_or(0),
        Err(_) => 0,
    }
}
