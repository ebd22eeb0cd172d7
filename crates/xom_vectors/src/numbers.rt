//! Numbers, and texts cut into lines and words.
//!
//! - `number TEXT = N` or `none`, `number_below TEXT BOUND = N` or `none`
//! - `hex16 TEXT = BYTES` or `none`, `hex32 TEXT = BYTES` or `none`
//! - `words TEXT = TEXT ..`, `lines TEXT = TEXT ..`: `none` where there is none.
//! - `cut TEXT BYTE = TEXT TEXT` or `none`: around the first such byte, which is a text or two digits.

use crate::args::Args;
use crate::fault::Answer;
use crate::line::{Line, digits, number_or_none, word};
use std::alloc::Global;
use text_lines::{cut, hex16, hex32, number, number_below, split_lines, words};

/// The result, or none where the kind isn't of this module.
pub fn answer(kind: &str, args: &Args) -> Option<Answer> {
    match (kind, args.len()) {
        ("number", 1) => Some(number_text(args)),
        ("number_below", 2) => Some(bounded_text(args)),
        ("hex16", 1) => Some(hex16_text(args)),
        ("hex32", 1) => Some(hex32_text(args)),
        ("words", 1) => Some(words_text(args)),
        ("lines", 1) => Some(lines_text(args)),
        ("cut", 2) => Some(cut_text(args)),
        _ => None,
    }
}

fn number_text(args: &Args) -> Answer {
    number_or_none(args.alloc(), number(args.bytes(0)?))
}

fn bounded_text(args: &Args) -> Answer {
    let number = number_below(args.bytes(0)?, args.number(1)?);
    number_or_none(args.alloc(), number)
}

fn hex16_text(args: &Args) -> Answer {
    match hex16(args.bytes(0)?) {
        Some(bytes) => digits(args.alloc(), &bytes),
        None => word(args.alloc(), "none"),
    }
}

fn hex32_text(args: &Args) -> Answer {
    match hex32(args.bytes(0)?) {
        Some(bytes) => digits(args.alloc(), &bytes),
        None => word(args.alloc(), "none"),
    }
}

fn texts(alloc: Global, found: &[&[u8]]) -> Answer {
    let mut line = Line::new(alloc);
    if found.is_empty() {
        line.word("none");
    }
    for bytes in found {
        line.quoted(bytes);
    }
    line.end()
}

fn words_text(args: &Args) -> Answer {
    let found = words(args.alloc(), args.bytes(0)?)?;
    texts(args.alloc(), found.as_slice())
}

fn lines_text(args: &Args) -> Answer {
    let found = split_lines(args.alloc(), args.bytes(0)?)?;
    texts(args.alloc(), found.as_slice())
}

fn cut_text(args: &Args) -> Answer {
    let [byte] = args.array::<1>(1)?;
    match cut(args.bytes(0)?, byte) {
        Some((front, behind)) => texts(args.alloc(), &[front, behind]),
        None => word(args.alloc(), "none"),
    }
}
