//! What instructions do. Words, addresses and values are eight hexadecimal digits.
//!
//! - `effect MODE PC NPC WORD FIRST SECOND THIRD = WRITES WISH next PC NPC`, or the name of a fault. The
//!   mode is `guest` or `null`. The three values are those of the cells that the instruction reads, in
//!   the order of `sources`; `F` stands for a cell that isn't owned. Writes are nothing, `r10=00000007`,
//!   where r32 is HI and r33 is LO, or `hi=00000000 lo=00000001`. Wishes are written as in `wishes`. The
//!   last two are the next pair of addresses.
//! - `sources WORD = CELL CELL CELL`
//! - `merge KIND OLD ADDRESS WORD = VALUE`: what a load gives its register. The kind is `byte`, `byteu`,
//!   `half`, `halfu`, `word`, `left` or `right`.

use crate::args::Args;
use crate::fault::{Answer, Fault};
use crate::instructions::instruction;
use crate::line::{Line, word};
use crate::wishes::{load_kind, push_wish};
use mips_effect::effects::Effect;
use mips_effect::{LoadKind, Mode, Seen, effect, merge, sources};
use mips_isa::fits;
use step_text::fault_name;
use xom_base::Writes;

/// The result, or none where the kind isn't of this module.
pub fn answer(kind: &str, args: &Args) -> Option<Answer> {
    match (kind, args.len()) {
        ("effect", 7) => Some(effect_text(args)),
        ("sources", 1) => Some(sources_text(args)),
        ("merge", 4) => Some(merged(args)),
        _ => None,
    }
}

fn mode(name: &str) -> Result<Mode, Fault> {
    match name {
        "guest" => Ok(Mode::Guest),
        "null" => Ok(Mode::Null),
        _ => Err(Fault::Unreadable),
    }
}

fn seen(args: &Args, place: usize) -> Result<Seen, Fault> {
    if args.written(place)? == "F" {
        Ok(Seen::Foreign)
    } else {
        Ok(Seen::Value(args.value(place)?))
    }
}

fn effect_text(args: &Args) -> Answer {
    let mode = mode(args.written(0)?)?;
    let (pc, npc) = (args.value(1)?, args.value(2)?);
    let ins = instruction(args, 3)?;
    let (first, second, third) = (seen(args, 4)?, seen(args, 5)?, seen(args, 6)?);
    if !fits(&ins) {
        return Err(Fault::Unreadable);
    }
    match effect(ins, mode, first, second, third, pc, npc) {
        Ok(effect) => {
            let mut line = Line::new(args.alloc());
            push_effect(&mut line, &effect);
            line.end()
        }
        Err(fault) => word(args.alloc(), fault_name(fault)),
    }
}

fn push_effect(line: &mut Line, effect: &Effect) {
    push_writes(line, effect.writes);
    push_wish(line, effect.wish);
    line.word("next");
    line.value(effect.pc);
    line.value(effect.npc);
}

fn push_writes(line: &mut Line, writes: Writes) {
    match writes {
        Writes::Nothing => {}
        Writes::One { reg, value } => {
            line.word("r");
            line.join_number(u64::from(reg));
            line.join("=");
            line.join_value(value);
        }
        Writes::Pair { hi, lo } => {
            line.word("hi=");
            line.join_value(hi);
            line.word("lo=");
            line.join_value(lo);
        }
    }
}

fn sources_text(args: &Args) -> Answer {
    let ins = instruction(args, 0)?;
    if !fits(&ins) {
        return Err(Fault::Unreadable);
    }
    let (first, second, third) = sources(ins);
    let mut line = Line::new(args.alloc());
    line.number(u64::from(first));
    line.number(u64::from(second));
    line.number(u64::from(third));
    line.end()
}

fn merged(args: &Args) -> Answer {
    let kind = load_kind(args.written(0)?).ok_or(Fault::Unreadable)?;
    let (old, address, loaded) = (args.value(1)?, args.value(2)?, args.value(3)?);
    let is_aligned = match kind {
        LoadKind::Word => address % 4 == 0,
        LoadKind::Half | LoadKind::HalfU => address % 2 == 0,
        LoadKind::Byte | LoadKind::ByteU | LoadKind::Left | LoadKind::Right => true,
    };
    if !is_aligned {
        return Err(Fault::Unreadable);
    }
    let mut line = Line::new(args.alloc());
    line.value(merge(kind, old, address, loaded));
    line.end()
}
