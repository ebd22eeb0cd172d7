//! Plays books of cases: worked calls of the top call, over files and a sink in memory.
//!
//! The words are the books' names; `case_book` says what a book is. For each book its name is printed, then a
//! line for each case. The last line counts the cases and the failures. The status is 0 where there was a case
//! and none failed, else 1. A book that can't be read, or isn't UTF-8, ends the program with status 1.
#![tactic(auto)]

use case_book::{Program, Tally, play};
use std::alloc::Global;
use std::io::ErrorKind;
use std::process::ExitCode;
use std::{env, fs, io};
use xom_cli::xom_main;
use xom_io::{MemFiles, MemSink};

// The program that ships.
struct Xom;

impl Program for Xom {
    fn call(
        &self,
        alloc: Global,
        words: &Vec<String>,
        files: &mut MemFiles,
        out: &mut MemSink,
    ) -> u8 {
        xom_main(alloc, words, files, out)
    }
}

fn main(rt: HostRuntime) -> io::Result<ExitCode> {
    let mut tally = Tally {
        cases: 0,
        failed: 0,
    };
    for name in env::args(&rt)?.skip(1) {
        let text = fs::read_to_string(&rt, name.as_str())?;
        let report = play(rt.alloc(), &Xom, text.as_str(), &mut tally).map_err(|_| io::Error::from(
            ErrorKind::OutOfMemory,
        ))?;
        println!(rt; "{name}\n{report}")?;
    }
    let Tally { cases, failed } = tally;
    println!(rt; "{cases} cases, {failed} failed")?;
    Ok(ExitCode::from(u8::from(cases == 0 || failed > 0)))
}
