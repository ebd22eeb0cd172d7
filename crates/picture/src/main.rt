//! The program `picture`: the words of the command line, the files of the disk and the standard output are
//! given to the top call, whose answer is the status.
#![tactic(auto)]

use cli_picture::picture;
use std::io::ErrorKind;
use std::process::ExitCode;
use std::{env, io};
use xom_io::{DiskFiles, StdSink};

fn main(rt: HostRuntime) -> ExitCode {
    let mut files = DiskFiles::new(rt.alloc(), &rt);
    let mut out = StdSink::new(&rt);
    let words = match words(&rt) {
        Ok(words) => words,
        Err(error) if error.kind() == ErrorKind::OutOfMemory => return ExitCode::from(5),
        // a word that isn't UTF-8 names no file, as no words do
        Err(_) => Vec::new(rt.alloc()),
    };
    ExitCode::from(picture(rt.alloc(), &words, &mut files, &mut out))
}

/// The words of the command line behind the program's name. They are no words where one isn't UTF-8.
fn words(rt: &HostRuntime) -> io::Result<Vec<String>> {
    let mut words = Vec::new(rt.alloc());
    for word in env::args(rt)?.skip(1) {
        words.push(word)?;
    }
    Ok(words)
}
