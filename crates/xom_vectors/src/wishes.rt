//! What an instruction wishes, as words:
//!
//! - `load r10 word 000ffffc 00000000`: the register, the kind of load, the address, and what the
//!   register had where the load keeps a part of it, else 0.
//! - `store 000fffff 1 00000044`: the address, the number of bytes, and the bytes as one value.
//! - `load_null r9 00100104`, `store_null 00100104 aabbccdd`: a word of RAM at an address.
//! - `release r8 00000007`, `receive r6 r7`, `exit`, `call 3`, `ask r10 who`
//! - `hand 00000040`: the handler of signals. `sigret`: the return from one.
//! - `do install 00000131 00000002 00000003`: an operation and its values.

use crate::line::Line;
use mips_effect::{Asked, LoadKind, Wish};
use xom_base::Op;

/// Adds the words of a wish. One for nothing has none.
pub fn push_wish(line: &mut Line, wish: Wish) {
    match wish {
        Wish::Nothing => {}
        Wish::Load {
            reg,
            address,
            kind,
            old,
        } => {
            push_register(line, "load", reg);
            line.word(load_name(kind));
            line.value(address);
            line.value(old);
        }
        Wish::Store {
            address,
            count,
            value,
        } => {
            line.word("store");
            line.value(address);
            line.number(u64::from(count));
            line.value(value);
        }
        _ => push_request(line, wish),
    }
}

fn push_register(line: &mut Line, name: &str, reg: u8) {
    line.word(name);
    line.word("r");
    line.join_number(u64::from(reg));
}

// Adds the words of a wish that isn't of memory.
fn push_request(line: &mut Line, wish: Wish) {
    match wish {
        Wish::Nothing | Wish::Load { .. } | Wish::Store { .. } => {}
        Wish::NullLoad { reg, address } => {
            push_register(line, "load_null", reg);
            line.value(address);
        }
        Wish::NullStore { address, value } => push_values(line, "store_null", &[address, value]),
        Wish::Hand(address) => push_values(line, "hand", &[address]),
        Wish::SigRet => line.word("sigret"),
        Wish::Release { reg, value } => {
            push_register(line, "release", reg);
            line.value(value);
        }
        Wish::Receive { reg, from } => {
            push_register(line, "receive", reg);
            line.word("r");
            line.join_number(u64::from(from));
        }
        Wish::Exit => line.word("exit"),
        Wish::Call(code) => {
            line.word("call");
            line.number(u64::from(code));
        }
        Wish::Do(op) => {
            line.word("do");
            push_operation(line, op);
        }
        Wish::Ask { reg, what } => {
            push_register(line, "ask", reg);
            line.word(asked_name(what));
        }
    }
}

fn load_name(kind: LoadKind) -> &'static str {
    match kind {
        LoadKind::Byte => "byte",
        LoadKind::ByteU => "byteu",
        LoadKind::Half => "half",
        LoadKind::HalfU => "halfu",
        LoadKind::Word => "word",
        LoadKind::Left => "left",
        LoadKind::Right => "right",
    }
}

/// The kind of load of this name.
pub fn load_kind(name: &str) -> Option<LoadKind> {
    match name {
        "byte" => Some(LoadKind::Byte),
        "byteu" => Some(LoadKind::ByteU),
        "half" => Some(LoadKind::Half),
        "halfu" => Some(LoadKind::HalfU),
        "word" => Some(LoadKind::Word),
        "left" => Some(LoadKind::Left),
        "right" => Some(LoadKind::Right),
        _ => None,
    }
}

fn asked_name(what: Asked) -> &'static str {
    match what {
        Asked::Status => "status",
        Asked::Cause => "cause",
        Asked::Arg => "arg",
        Asked::Who => "who",
    }
}

fn push_operation(line: &mut Line, op: Op) {
    match op {
        Op::Install {
            slot,
            envelope,
            area,
        } => push_values(line, "install", &[slot, envelope, area]),
        Op::Enter { slot } => push_values(line, "enter", &[slot]),
        Op::Resume { slot, signal } => push_values(line, "resume", &[slot, signal]),
        Op::Save { slot, reg, address } => push_values(line, "save", &[slot, reg, address]),
        Op::Restore { slot, reg, address } => push_values(line, "restore", &[slot, reg, address]),
        Op::Map { slot, page, frame } => push_values(line, "map", &[slot, page, frame]),
        Op::Unmap { slot, page } => push_values(line, "unmap", &[slot, page]),
        Op::SetReg { reg, value } => push_values(line, "setreg", &[reg, value]),
        Op::Kill { slot } => push_values(line, "kill", &[slot]),
        Op::Out { byte } => push_values(line, "out", &[u32::from(byte)]),
        Op::Halt => push_values(line, "halt", &[]),
    }
}

fn push_values(line: &mut Line, name: &str, values: &[u32]) {
    line.word(name);
    for value in values {
        line.value(*value);
    }
}
