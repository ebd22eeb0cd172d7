ghost use Rattle.std.specs.Prelude.{◌≡◌, IfOk, string_bytes};
ghost use Rattle.cli_base.specs.Commands.{IsDone};
ghost use Rattle.cli_base.specs.Inputs.{InputAnswers, input_of};
ghost use Rattle.cli_base.specs.Readings.{FilesGive};
ghost use Rattle.cli_judge.specs.Hearings.{judged_at};
ghost use Rattle.cli_judge.specs.Judge.{journal_limit, judge_of};

use crate::hearing::Hearing;
use cli_base::{Answer, InputFault, InputStop, Stop, fetch, of_file};
use cli_runs::{owners, run_file};
use journal_text::{BadLine, LineReader};
use std::alloc::Global;
use text_lines::first_line;
use xom_base::Key256;
use xom_io::Files;
use xom_owners::OwnerList;

/// The most bytes of a journal's text.
const JOURNAL_LIMIT: u64 = 268_435_456;

/// `judge RUN JOURNAL`: reads the run file, the images of its owners and the journal, and prints the
/// report on the journal. No other file that the run file names is read, and no list of entries is
/// made. It costs time linear in the journal's text, beside look-ups among its seals and hashes.
#[tactic(auto, unfolding(crate::specs::Judge::judge_of))]
pub fn judge<F: Files>(
    alloc: Global,
    files: &mut F,
    run: &String,
    journal: &String,
) -> Result<Answer, Stop>
    ensures gives { FilesGive (F.held files.old) (λ held. judge_of held (string_bytes run.now) (string_bytes journal.now))
        (F.reads files.old) (F.reads files.new) result }
    ensures done { IfOk result (λ answer. IsDone answer.status) }
    ensures names { F.held files.new ≡ F.held files.old }
    ensures writes { F.writes files.new ≡ F.writes files.old }
{
    let file = run_file(alloc, files, run)?;
    let owners = owners(alloc, files, &file.owners)?;
    journal_judged(alloc, files, &file.machine, &owners, journal)
}

/// Reads a journal and judges it.
fn journal_judged<F: Files>(
    alloc: Global,
    files: &mut F,
    machine: &Key256,
    owners: &OwnerList,
    name: &String,
) -> Result<Answer, Stop>
    ensures gives { FilesGive (F.held files.old) (λ held. input_of journal_limit (judged_at machine.now owners.now) held (string_bytes name.now))
        (F.reads files.old) (F.reads files.new) result }
    ensures done { IfOk result (λ answer. IsDone answer.status) }
    ensures names { F.held files.new ≡ F.held files.old }
    ensures writes { F.writes files.new ≡ F.writes files.old }
{
    let text = fetch(files, name, JOURNAL_LIMIT)?;
    of_file(name, text_judged(alloc, machine, owners, text.as_slice()))
}

/// Judges the text of a journal line by line.
fn text_judged(
    alloc: Global,
    machine: &Key256,
    owners: &OwnerList,
    text: &[u8],
) -> Result<Answer, InputStop>
    ensures value { InputAnswers (judged_at machine.now owners.now text.now) result }
    ensures done { IfOk result (λ answer. IsDone answer.status) }
{
    let mut hearing = Hearing::new(alloc, machine, owners)?;
    let mut reader = LineReader::new();
    let mut rest = text;
    while !rest.is_empty() {
        let (line, after) = first_line(rest);
        match reader.next(line) {
            Ok(Some(entry)) => hearing.hear(&entry)?,
            Ok(None) => {}
            Err(BadLine(n)) => return Err(InputStop::Fault(InputFault::BadLine(n))),
        }
        rest = after;
    }
    Ok(hearing.answer(alloc)?)
}
