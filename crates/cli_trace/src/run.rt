ghost use Rattle.std.specs.Prelude.{◌≡◌, IfOk, string_bytes};
ghost use Rattle.cli_base.specs.Commands.{IsDone};
ghost use Rattle.cli_base.specs.Readings.{FilesGive};
ghost use Rattle.cli_runs.specs.Parts.{CanRun};
ghost use Rattle.cli_trace.specs.Run.{console_run, run_answer};
ghost use Rattle.cli_trace.specs.Trace.{GuestsFollow, RunFollows};

use crate::made::{judged, status};
use cli_base::{Answer, Stop};
use cli_runs::{Parts, read_parts};
use run_text::console::console;
use std::alloc::Global;
use xom_base::{ByteList, NoMemory};
use xom_io::Files;

/// `run RUN`: makes the run that `trace` makes, and prints its console alone. The status is that of
/// its trace, for which the journal is judged here too.
#[tactic(auto, unfolding(crate::specs::Run::run_answer))]
pub fn run<F: Files>(alloc: Global, files: &mut F, run: &String) -> Result<Answer, Stop>
    ensures gives { FilesGive (F.held files.old) (λ held. run_answer held (string_bytes run.now))
        (F.reads files.old) (F.reads files.new) result }
    ensures done { IfOk result (λ answer. IsDone answer.status) }
    ensures follow { IfOk result (λ _. RunFollows (F.held files.old) (string_bytes run.now)) }
    ensures names { F.held files.new ≡ F.held files.old }
    ensures writes { F.writes files.new ≡ F.writes files.old }
{
    let parts = read_parts(alloc, files, run)?;
    Ok(console_alone(alloc, parts)?)
}

/// Makes the run, and prints its console.
#[tactic(auto, unfolding(crate::specs::Run::console_run))]
fn console_alone(alloc: Global, parts: Parts) -> Result<Answer, NoMemory>
    requires { CanRun parts }
    ensures value { IfOk result (λ answer. answer ≡ console_run parts) }
    ensures follow { IfOk result (λ _. GuestsFollow parts) }
{
    let made = judged(alloc, parts)?;
    let text = console(alloc, made.machine.journal())?;
    Ok(Answer {
        text: ByteList::from_vec(text),
        file: None,
        status: status(&made),
    })
}
