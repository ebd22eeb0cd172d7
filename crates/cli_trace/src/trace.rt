ghost use Rattle.std.specs.Prelude.{◌≡◌, IfOk, option_map, string_bytes};
ghost use Rattle.cli_base.specs.Commands.{IsDone};
ghost use Rattle.cli_base.specs.Readings.{FilesGive};
ghost use Rattle.cli_runs.specs.Parts.{CanRun};
ghost use Rattle.cli_trace.specs.Trace.{GuestsFollow, RunFollows, answer_of_run, journal_file as journal_file_of, trace_answer as traced_of, trace_of};

use crate::made::{JudgedRun, judged, status};
use cli_base::{Answer, OutputFile, Stop};
use cli_runs::{Parts, read_parts};
use journal_text::print_journal;
use run_text::console::{console, end_line};
use run_text::push_events;
use std::alloc::Global;
use trace_judge::print_report;
use xom_base::{ByteList, NoMemory};
use xom_io::{Files, Name};
use xom_journal::Journal;

/// `trace RUN` and `trace RUN JOURNAL`: reads what a run is made of, makes it, and prints its console
/// and the report on its journal. Where a file is named for the journal, its text is written there.
#[tactic(auto, unfolding(crate::specs::Trace::trace_of))]
pub fn trace<F: Files>(
    alloc: Global,
    files: &mut F,
    run: &String,
    journal: Option<&String>,
) -> Result<Answer, Stop>
    ensures gives { FilesGive (F.held files.old)
        (λ held. trace_of held (string_bytes run.now) (option_map (λ name. string_bytes name.now) journal.entry))
        (F.reads files.old) (F.reads files.new) result }
    ensures done { IfOk result (λ answer. IsDone answer.status) }
    ensures follow { IfOk result (λ _. RunFollows (F.held files.old) (string_bytes run.now)) }
    ensures names { F.held files.new ≡ F.held files.old }
    ensures writes { F.writes files.new ≡ F.writes files.old }
{
    let parts = read_parts(alloc, files, run)?;
    Ok(traced(alloc, parts, journal)?)
}

/// Makes the run, and says what a trace has to say of it.
#[tactic(auto, unfolding(crate::specs::Trace::trace_answer))]
fn traced(alloc: Global, parts: Parts, journal: Option<&String>) -> Result<Answer, NoMemory>
    requires { CanRun parts }
    ensures value { IfOk result (λ answer. answer ≡ traced_of (option_map (λ name. string_bytes name.now) journal.entry) parts) }
    ensures follow { IfOk result (λ _. GuestsFollow parts) }
{
    let made = judged(alloc, parts)?;
    answer(alloc, &made, journal)
}

/// What the trace has to say: the console, the report, and the line of the events; and the file of the
/// journal, where one is named.
fn answer(alloc: Global, made: &JudgedRun, journal: Option<&String>) -> Result<Answer, NoMemory>
    ensures { IfOk result (λ answer. answer ≡ answer_of_run (option_map (λ name. string_bytes name.now) journal.entry) made.now.report made.now.machine.state) }
{
    let mut text = console(alloc, made.machine.journal())?;
    end_line(&mut text)?;
    let lines = print_report(alloc, &made.report)?;
    text.extend_from_slice(lines.as_slice())?;
    push_events(
        &mut text,
        made.machine.events(),
        made.machine.is_halted(),
        made.machine.fault(),
    )?;
    Ok(Answer {
        text: ByteList::from_vec(text),
        file: journal_file(alloc, journal, made.machine.journal())?,
        status: status(made),
    })
}

/// The file of a journal, where one is named.
fn journal_file(
    alloc: Global,
    name: Option<&String>,
    journal: &Journal,
) -> Result<Option<OutputFile>, NoMemory>
    ensures { IfOk result (λ file. file ≡ journal_file_of (option_map (λ n. string_bytes n.now) name.entry) journal.now.entries) }
{
    match name {
        None => Ok(None),
        Some(name) => Ok(Some(OutputFile {
            name: Name::new(name.clone()?),
            bytes: print_journal(alloc, journal)?,
        })),
    }
}
