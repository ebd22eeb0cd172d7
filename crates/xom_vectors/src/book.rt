//! A file of vectors, gone through line by line.

use crate::args::Args;
use crate::fault::{Answer, Fault};
use crate::kinds::computed;
use crate::names::Names;
use std::alloc::Global;
use xom_base::NoMemory;

/// How many vectors were computed, and how many of them failed.
#[derive(Clone, Copy)]
pub struct Tally {
    pub vectors: u64,
    pub failed: u64,
}

impl Tally {
    fn count(&mut self, holds: bool) {
        self.vectors = self.vectors.saturating_add(1);
        self.failed = self.failed.saturating_add(u64::from(!holds));
    }

    fn add(&mut self, other: Tally) {
        self.vectors = self.vectors.saturating_add(other.vectors);
        self.failed = self.failed.saturating_add(other.failed);
    }
}

const NOTHING: Tally = Tally {
    vectors: 0,
    failed: 0,
};

#[derive(Drop)]
struct Book {
    alloc: Global,
    names: Names,
    /// Where the vectors come from, and how many of them there were.
    source: String,
    of_source: Tally,
    report: String,
}

/// Computes all the vectors of a file, and returns the report: a line for each source, above which
/// stand its vectors that failed.
pub fn play(alloc: Global, file: &str, tally: &mut Tally) -> Result<String, NoMemory> {
    let mut book = Book {
        alloc,
        names: Names::new(alloc),
        source: String::from_str(alloc, "no source")?,
        of_source: NOTHING,
        report: String::new(alloc),
    };
    for line in file.lines() {
        book.read(line, tally)?;
    }
    book.end_source(tally)?;
    Ok(book.report)
}

impl Book {
    fn read(&mut self, line: &str, tally: &mut Tally) -> Result<(), NoMemory> {
        if line.is_empty() || line.starts_with('#') {
            return Ok(());
        }
        match line.split_once(' ') {
            Some(("source", source)) => {
                self.end_source(tally)?;
                self.source = String::from_str(self.alloc, source)?;
                Ok(())
            }
            Some(("bytes", rest)) => match self.name(rest) {
                Ok(()) => Ok(()),
                Err(fault) => self.fail(line, Err(fault)),
            },
            _ => self.compare(line),
        }
    }

    // Reads `NAME WORD ..`.
    fn name(&mut self, line: &str) -> Result<(), Fault> {
        let (name, words) = line.split_once(' ').ok_or(Fault::Unreadable)?;
        let args = Args::read(self.alloc, words, &self.names)?;
        for place in 0..args.len() {
            self.names.add(name, args.bytes(place)?)?;
        }
        Ok(())
    }

    // Computes a vector, and compares the result.
    fn compare(&mut self, line: &str) -> Result<(), NoMemory> {
        let Some((asked, wanted)) = line.split_once(" = ") else {
            return self.fail(line, Err(Fault::Unreadable));
        };
        let (wanted, _) = wanted.split_once(" # ").unwrap_or((wanted, ""));
        let came = self.came(asked);
        match &came {
            Ok(text) if text.as_str() == wanted.trim_end() => {
                self.of_source.count(true);
                Ok(())
            }
            _ => self.fail(line, came),
        }
    }

    fn came(&self, asked: &str) -> Answer {
        let (kind, words) = asked.split_once(' ').unwrap_or((asked, ""));
        computed(kind, &Args::read(self.alloc, words, &self.names)?)
    }

    // Reports a line that doesn't hold, or can't be read.
    fn fail(&mut self, line: &str, came: Answer) -> Result<(), NoMemory> {
        self.of_source.count(false);
        match came {
            Ok(text) => write!(&mut self.report, "    {line}\n    gave {text}\n")?,
            Err(Fault::Unreadable) => {
                write!(&mut self.report, "    {line}\n    can't be read\n")?
            }
            Err(Fault::NoMemory) => return Err(NoMemory),
        }
        Ok(())
    }

    // Adds the line of the source that ends here, if it has vectors.
    fn end_source(&mut self, tally: &mut Tally) -> Result<(), NoMemory> {
        let Tally { vectors, failed } = self.of_source;
        let hold = vectors.saturating_sub(failed);
        let source = self.source.as_str();
        if vectors > 0 {
            write!(&mut self.report, "  {source}: {hold} of {vectors} hold\n")?;
        }
        tally.add(self.of_source);
        self.of_source = NOTHING;
        Ok(())
    }
}
