//! A book, played case by case.

use crate::program::Program;
use crate::stage::Stage;
use std::alloc::Global;
use xom_base::NoMemory;

/// How many cases were played, and how many of them failed.
#[derive(Clone, Copy)]
pub struct Tally {
    /// The cases that were played.
    pub cases: u64,
    /// Those of them that failed.
    pub failed: u64,
}

impl Tally {
    fn count(&mut self, has_failed: bool) {
        self.cases = self.cases.saturating_add(1);
        self.failed = self.failed.saturating_add(u64::from(has_failed));
    }
}

/// Plays all the cases of a book over a program, and answers a line for each.
pub fn play<P: Program>(
    alloc: Global,
    program: &P,
    book: &str,
    tally: &mut Tally,
) -> Result<String, NoMemory> {
    let mut report = String::new(alloc);
    let Some((shared, cases)) = parts(book) else {
        tally.count(true);
        report.push_str("FAILED: no case stands in it\n")?;
        return Ok(report);
    };
    for case in cases.split("\ncase ") {
        let (title, text) = case.split_once('\n').unwrap_or((case, ""));
        let mut stage = Stage::new(alloc);
        let failure = played(program, &mut stage, shared, text)?;
        tally.count(failure.is_some());
        if let Some(head) = failure {
            stage.tell(head, &mut report)?;
        }
        report.push_str("  ")?;
        report.push_str(title)?;
        report.push_str("\n")?;
    }
    Ok(report)
}

// What stands above the first case, and all from its title on; none where there is no case.
fn parts(book: &str) -> Option<(&str, &str)> {
    match book.strip_prefix("case ") {
        Some(cases) => Some(("", cases)),
        None => book.split_once("\ncase "),
    }
}

// Plays a case with what it shares, and answers where it failed.
fn played<'a, P: Program>(
    program: &P,
    stage: &mut Stage,
    shared: &'a str,
    text: &'a str,
) -> Result<Option<&'a str>, NoMemory> {
    if let Some(head) = stage.play(program, shared)? {
        return Ok(Some(head));
    }
    if let Some(head) = stage.play(program, text)? {
        return Ok(Some(head));
    }
    Ok(if stage.is_over() {
        None
    } else {
        Some("its end")
    })
}
