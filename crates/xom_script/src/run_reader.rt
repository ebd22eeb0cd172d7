ghost use Rattle.text_lines.specs.Lines.{AnswersRead, AnswersText};
ghost use Rattle.std.specs.Prelude.{◌≡◌, true, IfOk};
ghost use Rattle.xom_script.specs.RunFiles.{IsBadRun, IsRunFile, run_file_at};
ghost use Rattle.xom_script.specs.RunOrder.{is_whole};
ghost use Rattle.xom_script.specs.RunRules.{KeepsRules};
ghost use Rattle.xom_script.specs.declared.progress.Progress.TheVariants as progress;

use crate::RunFile;
use crate::progress::{Progress, after_line};
use crate::run_line::run_line;
use std::alloc::Global;
use std::mem;
use text_lines::{LineFault, LineFormat, TextFault, WholeFormat, read_whole, words};

/// Reads a run file, by the general rules of lines, words and comments. Its lines stand in this order:
/// `machine HEX` with 32 bytes, `boot N` below 2^63, `frames N` from 4 to 8,192, `budget N` at most
/// 1,048,576, at most 16 of `owner PLAIN HEX HEX` with a key of 32 bytes and an id of 16 that no owner
/// before has, at most 16 of `guest SEALED` or `guest SEALED INPUT`, one of `kernel script FILE`,
/// `kernel image FILE` and `kernel xomos F` with F 2 to 256 and at least 52 + F frames for each guest,
/// one of `interrupt never`, `interrupt every N` with N at least 1 and `interrupt at N N ..` with numbers
/// from 1 that ascend strictly, and any number of `poke EVENT ADDRESS HEX` with 1 to 8,192 bytes inside
/// RAM and events from 1 that ascend strictly. The fault is `Line` with the first bad line, the one
/// behind the last where the text ends before its interrupts, or `NoMemory`. It costs time linear in
/// the text.
pub fn read_run(alloc: Global, text: &[u8]) -> Result<RunFile, TextFault>
    // What is read is in the grammar, what is in the grammar is read, and a line is the first bad one.
    ensures text { AnswersText (IsRunFile text.now) (IsBadRun text.now) result }
    ensures rules { IfOk result KeepsRules }
    ensures value { AnswersRead (run_file_at text.now) result }
{
    run_file_in(alloc, text)
}

#[tactic(auto, unfolding(crate::specs::RunFiles::run_file_at))]
fn run_file_in(alloc: Global, text: &[u8]) -> Result<RunFile, TextFault>
    ensures { AnswersRead (run_file_at text.now) result }
{
    let mut progress = Progress::Start;
    read_whole(alloc, text, &mut progress)?;
    Ok(whole_file(progress))
}

/// The run file of a text that may end.
fn whole_file(last: Progress) -> RunFile
    requires { is_whole last ≡ true }
    ensures { last ≡ progress.Whole result }
{
    match last {
        Progress::Whole(file) => file,
        _ => unreachable!(),
    }
}

impl LineFormat for Progress {
    ghost use Rattle.xom_script.specs.RunFiles.{run_step};

    type Item = ();

    ghost step = { run_step };

    fn read(&mut self, alloc: Global, number: u64, line: &[u8]) -> Result<Option<()>, LineFault> {
        let words = words(alloc, line)?;
        if words.is_empty() {
            return Ok(None);
        }
        let Some(line) = run_line(alloc, words.as_slice())? else {
            return Err(LineFault::Bad);
        };
        let before = mem::replace(self, Progress::Start);
        match after_line(alloc, before, number, line)? {
            Some(after) => {
                *self = after;
                Ok(Some(()))
            }
            None => Err(LineFault::Bad),
        }
    }
}

impl WholeFormat for Progress {
    ghost use Rattle.xom_script.specs.RunOrder.{is_whole};
    ghost use Rattle.xom_script.specs.RunRules.{KeepsRules};

    ghost may_end = { is_whole };

    fn may_end(&self) -> bool {
        self.is_whole()
    }
}
