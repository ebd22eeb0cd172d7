//! Computes vectors from outside with the libraries, and compares each with its expected text.
//!
//! The words of the command line name files of vectors. For each file the program prints its name
//! and a line for each source, with the number of its vectors that hold. Above a source's line stands
//! each of its vectors that doesn't hold, with what came instead. The closing line counts all. The
//! status is 1 where a vector failed. A line that can't be read counts as a vector that failed.
//!
//! # The form of a file
//!
//! A file goes line by line. Empty lines and lines that begin with `#` say nothing.
//!
//! - `source TEXT`: the vectors below come from there.
//! - `bytes NAME WORD ..`: `@NAME` stands for the bytes of these words, behind those of earlier lines
//!   with that name.
//! - `KIND WORD .. = RESULT`: a vector. The first ` = ` stands before its result, and the first ` # `
//!   behind that before a comment. The result is compared as text, without blanks at its end.
//!
//! Blanks stand between words. A word has no blank and no bar, or it is a text between two bars, in
//! which `%` and two hexadecimal digits stand for a byte: `|100%25%0a|` is 100, a percent sign and a
//! line feed. What a word means depends on its place:
//!
//! - Bytes are hexadecimal digits, `DIGITS*COUNT` for bytes that are repeated, `@NAME`, or a text.
//!   Behind bytes, but not behind a text, may stand changes: `/..N` keeps the first N bytes, `/N=HH`
//!   sets byte N, counted from 0, and `/N^HH` flips its bits.
//! - A value of 32 bits is eight hexadecimal digits, and so are an address and an instruction's word.
//! - A number is decimal, or hexadecimal behind `0x`.
//!
//! Results have bytes in hexadecimal digits, in lower case, and texts between bars. What the words and
//! the result of a kind are is said at the module that computes it: `cipher`, `mac`, `sealing`,
//! `images`, `instructions`, `effects`, `tokens` and `numbers`.
#![tactic(auto)]

mod args;
mod book;
mod cipher;
mod effects;
mod fault;
mod images;
mod instructions;
mod kinds;
mod line;
mod mac;
mod names;
mod numbers;
mod operands;
mod sealing;
mod tokens;
mod wishes;

use book::{Tally, play};
use std::io::ErrorKind;
use std::process::ExitCode;
use std::{env, fs, io};

fn main(rt: HostRuntime) -> io::Result<ExitCode> {
    let mut tally = Tally {
        vectors: 0,
        failed: 0,
    };
    for name in env::args(&rt)?.skip(1) {
        let text = fs::read_to_string(&rt, name.as_str())?;
        let report = play(rt.alloc(), text.as_str(), &mut tally).map_err(|_| io::Error::from(
            ErrorKind::OutOfMemory,
        ))?;
        println!(rt; "{name}\n{report}")?;
    }
    let Tally { vectors, failed } = tally;
    println!(rt; "{vectors} vectors, {failed} failed")?;
    Ok(ExitCode::from(u8::from(failed > 0)))
}
