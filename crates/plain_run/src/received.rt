ghost use Rattle.std.specs.Prelude.{◌≡◌, map};
ghost use Rattle.text_lines.specs.Lines.{AnswersRead, AnswersText};
ghost use Rattle.plain_run.specs.Received.{IsBadValueLine, IsReceivedFile, received_at, value_of_line};

use std::alloc::Global;
use step_text::hex8_in;
use text_lines::{RowFormat, TextFault, read_rows};
use xom_base::{List, NoMemory};

/// The values that a program receives, in their order.
pub type ReceivedList = List<u32>;

/// Reads a received file: one value of eight hexadecimal digits a line, in either case of letters, by
/// the general rules of lines, words and comments. The fault is `Line` with the number of the first bad
/// line, counted from 1, or `NoMemory`. It costs time linear in the text.
pub fn read_received(alloc: Global, text: &[u8]) -> Result<ReceivedList, TextFault>
    // What is read is in the grammar, and what is in the grammar is read, unless memory ran out. The line
    // that is answered is the first bad one.
    ensures text { AnswersText (IsReceivedFile text.now) (IsBadValueLine text.now) result }
    ensures value { AnswersRead (received_at text.now) result }
{
    read_values(alloc, text)
}

#[tactic(auto, unfolding(crate::specs::Received::received_at))]
fn read_values(alloc: Global, text: &[u8]) -> Result<ReceivedList, TextFault>
    ensures { AnswersRead (received_at text.now) result }
{
    read_rows(alloc, text, ValueRows)
}

/// A line of a received file is told by its words alone.
#[derive(Drop)]
struct ValueRows;

impl RowFormat for ValueRows {
    ghost use Rattle.plain_run.specs.Received.{value_of_line};

    type Item = u32;

    ghost said = { value_of_line };

    fn read_row(&self, _: Global, words: &[&[u8]]) -> Result<Option<u32>, NoMemory> {
        Ok(value_in(words))
    }
}

/// The value that is the only word of a line.
#[tactic(auto, unfolding(crate::specs::Received::value_of_line))]
fn value_in(words: &[&[u8]]) -> Option<u32>
    ensures { result ≡ value_of_line (map (λ word. word.now) words.now) }
{
    match words {
        [word] => hex8_in(word),
        _ => None,
    }
}
