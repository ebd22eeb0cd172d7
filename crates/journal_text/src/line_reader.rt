ghost use Rattle.std.specs.Prelude.{◌≡◌, ◌↔◌, ◌<◌, ◌+◌, ◌^◌, ◌∷◌, ◌++◌, [], ℕ, List, IfOk, IsNone, Err, true, false};
ghost use Rattle.text_lines.specs.Words.{words_of};
ghost use Rattle.xom_base.specs.declared.entry.Entry.{Entry as AnEntry};
ghost use Rattle.journal_text.specs.JournalLines.{journal_step};
ghost use Rattle.journal_text.specs.Readings.{AnswersNext, AnswersStep, HasRead};

use crate::rows::line_in;
use std::marker::Model;
use xom_base::Entry;

/// The number of the first bad line, counted from 1.
#[derive(Clone, Copy, Debug, PartialEq, Eq)]
pub struct BadLine(pub u64);

/// Reads a journal's text line by line, and takes no memory. Contracts see what it keeps of the lines
/// before: the number of the last install, how many lines there were, and whether the last is bad.
#[derive(Drop)]
pub struct LineReader {
    last: u64,
    lines: u64,
    bad: bool,
}

impl Model for LineReader {
    ghost use Rattle.journal_text.specs.Readings.{Reading};

    ghost Value = { Reading };

    ghost view = { λ r. record { last = r.last; lines = r.lines; bad = r.bad } };
}

impl LineReader {
    /// A reader that has read no line.
    pub fn new() -> LineReader
        ensures value { result ≡ record { last = 0; lines = 0; bad = false } }
        ensures read { HasRead result [] [] }
    {
        LineReader {
            last: 0,
            lines: 0,
            bad: false,
        }
    }

    /// Reads the next line, without its line end: gives its entry, or None where it has no words. After a
    /// bad line each call answers the number of the first bad one. It costs time linear in the line, and
    /// that of the digest for a hash line.
    pub fn next(&mut self, line: &[u8]) -> Result<Option<Entry>, BadLine>
        requires { self.old.lines + 1 < 2 ^ 64 }
        // What it gives are the entries of the lines so far; a bad line is the first of them that is bad.
        ensures answers { (lines : List (List ℕ)) (entries : List AnEntry) → HasRead self.old lines entries
            → AnswersNext (lines ++ line.now ∷ []) entries result self.new }
        ensures blank { IfOk result (λ found. IsNone found ↔ (words_of line.now ≡ [])) }
        ensures stays { self.old.bad ≡ true → (result ≡ Err (record { 0 = self.old.lines })) × (self.new ≡ self.old) }
        ensures value { self.old.bad ≡ false → AnswersStep (journal_step self.old.last 0 line.now) self.old result self.new }
    {
        self.read(line)
    }

    fn read(&mut self, line: &[u8]) -> Result<Option<Entry>, BadLine>
        requires { self.old.lines + 1 < 2 ^ 64 }
        ensures stays { self.old.bad ≡ true → (result ≡ Err (record { 0 = self.old.lines })) × (self.new ≡ self.old) }
        ensures value { self.old.bad ≡ false → AnswersStep (journal_step self.old.last 0 line.now) self.old result self.new }
    {
        if self.bad {
            return Err(BadLine(self.lines));
        }
        self.lines += 1;
        match line_in(self.last, line) {
            Some((found, last)) => {
                self.last = last;
                Ok(found)
            }
            None => {
                self.bad = true;
                Err(BadLine(self.lines))
            }
        }
    }
}
