ghost use Rattle.std.specs.Prelude.{◌≡◌, ℕ, IfOk, List, Option, map};
ghost use Rattle.text_lines.specs.Lines.{AnswersRead, rows_of};

use crate::{LineFault, LineFormat, TextFault, read_lines, words};
use std::alloc::Global;
use std::marker::Model;
use xom_base::{List, NoMemory};

/// A format of which each line says a value by its words alone, wherever it stands. A line with no words
/// is passed over.
pub trait RowFormat {
    /// What a line says.
    type Item: Drop;

    ghost said: { List (List ℕ) → Option Self.Item };

    /// What these words of a line say. None where they are off the grammar.
    fn read_row(&self, alloc: Global, words: &[&[u8]]) -> Result<Option<Self::Item>, NoMemory>
        ensures { IfOk result (λ found. found ≡ said (map (λ word. word.now) words.now)) };
}

/// Reads the values of a text, one a line: all of them in their order, or the number of the first line
/// that is off the grammar, counted from 1. It costs time linear in the text, beside what its rows cost.
pub fn read_rows<R: RowFormat + Drop>(
    alloc: Global,
    text: &[u8],
    rows: R,
) -> Result<List<R::Item>, TextFault>
    ensures { AnswersRead (rows_of R.said text.now) result }
{
    let mut reader = RowReader { rows };
    let values = read_lines(alloc, text, &mut reader)?;
    Ok(List::from_vec(values))
}

/// Such a format as one that goes line by line: it keeps nothing of the lines before.
#[derive(Drop)]
struct RowReader<R: RowFormat + Drop> {
    rows: R,
}

impl<R: RowFormat + Drop> Model for RowReader<R> {
    ghost Value = { Unit {0} };

    ghost view = { λ _. tt };
}

impl<R: RowFormat + Drop> LineFormat for RowReader<R> {
    ghost use Rattle.text_lines.specs.Lines.{rows_step};

    type Item = R::Item;

    ghost step = { rows_step R.said };

    fn read(&mut self, alloc: Global, _: u64, line: &[u8]) -> Result<Option<R::Item>, LineFault> {
        let words = words(alloc, line)?;
        if words.is_empty() {
            return Ok(None);
        }
        match self.rows.read_row(alloc, words.as_slice())? {
            Some(value) => Ok(Some(value)),
            None => Err(LineFault::Bad),
        }
    }
}
