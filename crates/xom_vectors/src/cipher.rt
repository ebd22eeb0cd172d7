//! AES-128, its rounds and words. Keys, blocks and states are 16 bytes.
//!
//! - `aes128 KEY BLOCK .. = BLOCK ..`: all blocks under one schedule.
//! - `key_word KEY N = BYTES`: the word of this number, 0 to 43, of the expanded key.
//! - `after_rounds KEY N BLOCK = STATE`: the state after so many rounds, 0 to 9, where the next one starts.
//! - `s_box BYTE = BYTE`

use crate::args::Args;
use crate::fault::{Answer, Fault};
use crate::line::{Line, digits};
use aes_block::{Key128, Schedule, s_box};

/// The result, or none where the kind isn't of this module.
pub fn answer(kind: &str, args: &Args) -> Option<Answer> {
    match (kind, args.len()) {
        ("aes128", 2..) => Some(blocks(args)),
        ("key_word", 2) => Some(key_word(args)),
        ("after_rounds", 3) => Some(after_rounds(args)),
        ("s_box", 1) => Some(substituted(args)),
        _ => None,
    }
}

fn blocks(args: &Args) -> Answer {
    let schedule = Schedule::new(&Key128(args.array(0)?));
    let mut line = Line::new(args.alloc());
    for place in 1..args.len() {
        let block = args.array(place)?;
        line.hex(&schedule.encrypt(&block));
    }
    line.end()
}

fn key_word(args: &Args) -> Answer {
    let schedule = Schedule::new(&Key128(args.array(0)?));
    let place = usize::from(args.number8(1)?);
    if place >= 44 {
        return Err(Fault::Unreadable);
    }
    digits(args.alloc(), &schedule.word(place))
}

fn after_rounds(args: &Args) -> Answer {
    let schedule = Schedule::new(&Key128(args.array(0)?));
    let rounds = usize::from(args.number8(1)?);
    if rounds >= 10 {
        return Err(Fault::Unreadable);
    }
    let state = schedule.after_rounds(rounds, &args.array(2)?);
    digits(args.alloc(), &state)
}

fn substituted(args: &Args) -> Answer {
    let [byte] = args.array::<1>(0)?;
    digits(args.alloc(), &[s_box(byte)])
}
