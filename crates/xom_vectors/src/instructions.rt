//! Instructions as words and as text. Words and addresses are eight hexadecimal digits. Operands are
//! written as in `operands`.
//!
//! - `word WORD = TEXT` or `reserved`: the instruction of a word, printed at address 0. It is encoded
//!   again: where that gives another word, the result ends with `encoded as WORD`.
//! - `word_at ADDRESS WORD = TEXT` or `reserved`: the same at an address.
//! - `form WORD = MNEMONIC OPERAND ..`
//! - `build MNEMONIC OPERAND .. = WORD`, `none`, or `unfit` where an operand is out of its range.
//! - `fits MNEMONIC OPERAND .. = yes` or `no`
//! - `kinds MNEMONIC = KIND ..`, `no operands` or `none`
//! - `listing BYTES = TEXT`: of an image of these bytes.

use crate::args::Args;
use crate::fault::{Answer, Fault};
use crate::images::image;
use crate::line::{Line, word, yes_or_no};
use crate::operands::{kind_name, operand, push_operands};
use mips_forms::{build, form, kinds};
use mips_instruction::Ins;
use mips_isa::{decode, encode, fits};
use mips_text::{listing, print};
use std::alloc::Global;

/// The result, or none where the kind isn't of this module.
pub fn answer(kind: &str, args: &Args) -> Option<Answer> {
    match (kind, args.len()) {
        ("word", 1) => Some(word_text(args)),
        ("word_at", 2) => Some(word_text_at(args)),
        ("form", 1) => Some(form_text(args)),
        ("build", 1..) => Some(built_word(args)),
        ("fits", 1..) => Some(built_fits(args)),
        ("kinds", 1) => Some(kinds_text(args)),
        ("listing", 1) => Some(listing_text(args)),
        _ => None,
    }
}

fn word_text(args: &Args) -> Answer {
    text_at(args.alloc(), 0, args.value(0)?)
}

fn word_text_at(args: &Args) -> Answer {
    text_at(args.alloc(), args.value(0)?, args.value(1)?)
}

fn text_at(alloc: Global, address: u32, number: u32) -> Answer {
    match decode(number) {
        Some(ins) if fits(&ins) => {
            let printed = print(alloc, ins, address)?;
            let mut line = Line::new(alloc);
            line.word(str::from_utf8(printed.as_slice()).unwrap_or(""));
            if encode(ins) != number {
                line.word("encoded as");
                line.value(encode(ins));
            }
            line.end()
        }
        Some(_) => word(alloc, "unfit"),
        None => word(alloc, "reserved"),
    }
}

/// The instruction of the word at a place.
pub fn instruction(args: &Args, place: usize) -> Result<Ins, Fault> {
    decode(args.value(place)?).ok_or(Fault::Unreadable)
}

fn form_text(args: &Args) -> Answer {
    let form = form(instruction(args, 0)?);
    let mut line = Line::new(args.alloc());
    line.word(form.name);
    push_operands(&mut line, form.operands);
    line.end()
}

// The instruction of the mnemonic and the operands of a vector, if there is one.
fn built(args: &Args) -> Result<Option<Ins>, Fault> {
    let name = args.written(0)?;
    let mut operands = Vec::new(args.alloc());
    for place in 1..args.len() {
        let operand = operand(args.written(place)?).ok_or(Fault::Unreadable)?;
        operands.push(operand)?;
    }
    Ok(build(name.as_bytes(), operands.as_slice()))
}

fn built_word(args: &Args) -> Answer {
    let built = built(args)?;
    let mut line = Line::new(args.alloc());
    match built {
        Some(ins) if fits(&ins) => line.value(encode(ins)),
        Some(_) => line.word("unfit"),
        None => line.word("none"),
    }
    line.end()
}

fn built_fits(args: &Args) -> Answer {
    match built(args)? {
        Some(ins) => yes_or_no(args.alloc(), fits(&ins)),
        None => Err(Fault::Unreadable),
    }
}

fn kinds_text(args: &Args) -> Answer {
    let kinds = kinds(args.written(0)?.as_bytes());
    let mut line = Line::new(args.alloc());
    match kinds {
        None => line.word("none"),
        Some([]) => line.word("no operands"),
        Some(kinds) => {
            for kind in kinds {
                line.word(kind_name(*kind));
            }
        }
    }
    line.end()
}

fn listing_text(args: &Args) -> Answer {
    let image = image(args.alloc(), 0, args.bytes(0)?)?;
    let printed = listing(args.alloc(), &image)?;
    let mut line = Line::new(args.alloc());
    line.quoted(printed.as_slice());
    line.end()
}
