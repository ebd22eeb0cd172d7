ghost use Rattle.std.specs.Prelude.{◌≡◌, ◌<◌, ◌+◌, ◌∷◌, ◌++◌, ℕ, Bool, List, Option, Ok, length, map, IfOk, MatchResult, OnOk};
ghost use Rattle.std.specs.Option.{option_to_list};
ghost use Rattle.text_lines.specs.declared.lines.LineFault.TheVariants as line_fault;
ghost use Rattle.text_lines.specs.declared.lines.TextFault.TheVariants as text_fault;
ghost use Rattle.text_lines.specs.Lines.{AnswersLine, TextFaults, lines_of, read_from, whole_from};

use crate::cut;
use std::alloc::Global;
use thiserror::Error;
use xom_base::NoMemory;

/// Why a text isn't read.
#[derive(Clone, Copy, Debug, PartialEq, Eq, Error)]
pub enum TextFault {
    /// The line of this number, counted from 1, is the first that is off the grammar. Where the text
    /// ends too early it is the line after its last one.
    #[error("line {0} is off the grammar")]
    Line(u64),
    /// Want of memory.
    #[error("out of memory")]
    NoMemory,
}

impl From<NoMemory> for TextFault {
    ghost from_gives = { λ _ e. e ≡ text_fault.NoMemory };

    fn from(_: NoMemory) -> TextFault {
        TextFault::NoMemory
    }
}

impl From<NoMemory> for LineFault {
    ghost from_gives = { λ _ e. e ≡ line_fault.NoMemory };

    fn from(_: NoMemory) -> LineFault {
        LineFault::NoMemory
    }
}

/// Why one line isn't read.
#[derive(Clone, Copy)]
pub enum LineFault {
    /// It is off the grammar.
    Bad,
    /// Want of memory.
    NoMemory,
}

/// A format that goes line by line. The reader is what it keeps of the lines before. A text may end
/// behind each of its lines.
pub trait LineFormat {
    /// What a line that isn't passed over gives.
    type Item: Drop;

    ghost step: { Self → ℕ → List ℕ → Option (Option Self.Item × Self) };

    /// Reads the line of this number, counted from 1: its bytes without the line end. None is for a
    /// line that is passed over, as an empty one.
    fn read(
        &mut self,
        alloc: Global,
        number: u64,
        line: &[u8],
    ) -> Result<Option<Self::Item>, LineFault>
        ensures { AnswersLine (step self.old number line.now) result self.new };
}

/// A format whose text may end too early: it says in which states a text may end.
pub trait WholeFormat: LineFormat {
    ghost may_end: { Self → Bool };

    /// Whether the text may end behind the lines that were read.
    fn may_end(&self) -> bool
        ensures { result ≡ may_end self.now };
}

/// Reads the lines of a text in their order: gives their values and leaves the reader behind the last
/// one, or answers the number of the first bad line. It costs time linear in the text, beside what the
/// reader costs.
pub fn read_lines<R: LineFormat>(
    alloc: Global,
    text: &[u8],
    reader: &mut R,
) -> Result<Vec<R::Item>, TextFault>
    ensures { let read = read_from R.step reader.old 1 (lines_of text.now) in
        MatchResult result (λ values. read ≡ Ok (values.items, reader.new)) (λ fault. TextFaults read fault) }
{
    let (values, _) = read_counted(alloc, text, reader)?;
    Ok(values)
}

/// The same for a format whose text may end too early: the bad line is then the one behind the last.
/// A line end that is missing at the end of the text makes no further line.
pub fn read_whole<R: WholeFormat>(
    alloc: Global,
    text: &[u8],
    reader: &mut R,
) -> Result<Vec<R::Item>, TextFault>
    ensures { let read = whole_from R.step R.may_end reader.old text.now in
        MatchResult result (λ values. read ≡ Ok (values.items, reader.new)) (λ fault. TextFaults read fault) }
{
    let (values, number) = read_counted(alloc, text, reader)?;
    if reader.may_end() {
        Ok(values)
    } else {
        Err(TextFault::Line(number))
    }
}

/// The values of the lines, and the number of the line that would come behind the last one.
fn read_counted<R: LineFormat>(
    alloc: Global,
    text: &[u8],
    reader: &mut R,
) -> Result<(Vec<R::Item>, u64), TextFault>
    ensures value { let read = read_from R.step reader.old 1 (lines_of text.now) in
        MatchResult result (λ found. read ≡ Ok (found.0.items, reader.new)) (λ fault. TextFaults read fault) }
    ensures number { IfOk result (λ found. found.1 ≡ 1 + length (lines_of text.now)) }
{
    let mut values = Vec::new(alloc);
    let mut rest = text;
    let mut number = 1;
    while !rest.is_empty() {
        let (line, after) = first_line(rest);
        let value = match reader.read(alloc, number, line) {
            Ok(value) => value,
            Err(LineFault::Bad) => return Err(TextFault::Line(number)),
            Err(LineFault::NoMemory) => return Err(TextFault::NoMemory),
        };
        push_value(&mut values, value)?;
        rest = after;
        number += 1;
    }
    Ok((values, number))
}

/// Adds a value, if there is one.
fn push_value<X: Drop>(values: &mut Vec<X>, value: Option<X>) -> Result<(), NoMemory>
    ensures { OnOk result (values.new.items ≡ values.old.items ++ option_to_list value) }
{
    match value {
        None => Ok(()),
        Some(value) => Ok(values.push(value)?),
    }
}

/// The lines of a text, each without its line end.
pub fn split_lines(alloc: Global, text: &[u8]) -> Result<Vec<&[u8]>, NoMemory>
    ensures { IfOk result (λ lines. map (λ line. line.now) lines.items ≡ lines_of text.now) }
{
    let mut lines = Vec::new(alloc);
    let mut rest = text;
    while !rest.is_empty() {
        let (line, after) = first_line(rest);
        lines.push(line)?;
        rest = after;
    }
    Ok(lines)
}

/// The first line of a text that isn't empty, and what stands behind its line end.
pub fn first_line(text: &[u8]) -> (&[u8], &[u8])
    requires { 0 < length text.now }
    ensures lines { lines_of text.now ≡ result.0.now ∷ lines_of result.1.now }
    ensures shorter { length result.1.now < length text.now }
{
    match cut(text, b'\n') {
        Some(parts) => parts,
        None => (text, &[]),
    }
}
