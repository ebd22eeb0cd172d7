ghost use Rattle.text_lines.specs.Lines.{AnswersRead, AnswersText};
ghost use Rattle.xom_script.specs.Scripts.{IsBadScript, IsScript, script_at};

use crate::script_line::script_line;
use crate::{ScriptLine, ScriptLineList};
use std::alloc::Global;
use text_lines::{RowFormat, TextFault, read_rows};
use xom_base::NoMemory;

/// What a kernel that follows a script does, turn by turn.
#[derive(Drop)]
pub struct Script {
    /// One line a turn, in their order. Lines after a `halt` never come to a turn.
    pub lines: ScriptLineList,
}

/// Reads a script: one line a turn, by the general rules of lines, words and comments. The lines are
/// `install S E A`, `enter S`, `resume S N`, `save S R A`, `restore S R A`, `map S P F`, `unmap S P`,
/// `setreg R V`, `kill S`, `out B`, `halt`, `write A HEX` with 1 to 8,192 bytes, `copy FROM TO N` with
/// N 1 to 8,192, `flip A M` and `show`. Numbers are below 2^32, B and M below 256. The fault is `Line`
/// with the first line that is none of these, or `NoMemory`. It costs time linear in the text.
pub fn read_script(alloc: Global, text: &[u8]) -> Result<Script, TextFault>
    // What is read is in the grammar, what is in the grammar is read, and a line is the first bad one.
    ensures text { AnswersText (IsScript text.now) (IsBadScript text.now) result }
    ensures value { AnswersRead (script_at text.now) result }
{
    script_in(alloc, text)
}

#[tactic(auto, unfolding(crate::specs::Scripts::script_at))]
fn script_in(alloc: Global, text: &[u8]) -> Result<Script, TextFault>
    ensures { AnswersRead (script_at text.now) result }
{
    let lines = read_rows(alloc, text, ScriptRows)?;
    Ok(Script { lines })
}

/// A line of a script is told by its words alone.
#[derive(Drop)]
struct ScriptRows;

impl RowFormat for ScriptRows {
    ghost use Rattle.xom_script.specs.ScriptLines.{script_line_of};

    type Item = ScriptLine;

    ghost said = { script_line_of };

    fn read_row(&self, alloc: Global, words: &[&[u8]]) -> Result<Option<ScriptLine>, NoMemory> {
        script_line(alloc, words)
    }
}
