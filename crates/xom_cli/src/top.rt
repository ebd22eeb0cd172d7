ghost use Rattle.std.specs.Prelude.{◌≡◌, IfOk, map, string_bytes};
ghost use Rattle.cli_delivery.specs.Endings.{disk, output, outside};
ghost use Rattle.xom_cli.specs.Endings.{Ends, RowFollows};
ghost use Rattle.cli_base.specs.Commands.{IsDone};
ghost use Rattle.xom_cli.specs.Outcome.{IsOutcome};
ghost use Rattle.xom_cli.specs.Promises.{Promises};
ghost use Rattle.cli_base.specs.Readings.{Meets};
ghost use Rattle.xom_cli.specs.Words.{row_of_words_of};

use crate::row::{Row, row_named};
use cli_base::{Answer, Stop};
use cli_debug::debug::debug;
use cli_delivery::{Ending, finish, print};
use cli_judge::judge::judge;
use cli_programs::asm::asm;
use cli_programs::disasm::disasm;
use cli_programs::plain::plain;
use cli_programs::seal::seal;
use cli_trace::run::run;
use cli_trace::trace::trace;
use std::alloc::Global;
use xom_io::{Files, Sink};

/// Carries out the command of these words, which come after the program's name, and answers the
/// status.
///
/// - `asm SOURCE IMAGE` assembles a source and writes its image as the plain image file IMAGE.
/// - `disasm IMAGE` prints each word of a plain image as its address, itself and its instruction.
/// - `plain IMAGE STEPS` and `plain IMAGE STEPS RECEIVED` run an image's program alone, for at most
///   STEPS steps, and print each; the values that it receives come from a received file.
/// - `seal IMAGE KEY ID MACHINE SEALED` seals a plain image under its owner's key and id for a
///   machine, and writes it as the file SEALED.
/// - `run RUN` makes the run of a run file and prints its console: the bytes that its kernel wrote
///   there. Where there is none nothing is put.
/// - `trace RUN` and `trace RUN JOURNAL` make the same run, with the same status, and print its console
///   and the judgement of its journal; where a file is named, the journal's text is written there.
/// - `judge RUN JOURNAL` judges a journal that was taken away, by the owners of a run file, and prints
///   the report. Of the files that the run file names it reads the owners' images alone.
/// - `debug RUN COMMANDS` makes the run of a run file as far as the commands of a debugger ask for it, and
///   prints what they print. No journal is judged, and the status is 0, whatever happened in the run.
///
/// 0: carried out; for a run, the kernel halted; for a journal, none of what follows. 1: the words match no command. 2: a file can't be
/// read. 3: the output can't be written. 4: a file is too long, or off its format. 5: no memory was
/// found. 6: the budget was reached. 7: the kernel faulted. 8: a guest was stopped. 9: the report names a forgery, a
/// collision, or a guest that departs from its program. No file is changed but the one that the
/// command writes, and that is put before anything is printed.
pub fn xom_main<F: Files, O: Sink>(
    alloc: Global,
    words: &Vec<String>,
    files: &mut F,
    out: &mut O,
) -> u8
    // The status with its causes, the text, the file, and what the owner of a guest may believe.
    ensures promises { Promises (map string_bytes words.now.items)
        (outside (disk (F.held files.old) (F.writes files.old)) (F.reads files.old) (output (O.written out.old) (O.faults out.old)))
        (outside (disk (F.held files.new) (F.writes files.new)) (F.reads files.new) (output (O.written out.new) (O.faults out.new)))
        result }
{
    call(alloc, words.as_slice(), files, out).status()
}

/// A whole call: the words, the command, its file and its text.
fn call<F: Files, O: Sink>(alloc: Global, words: &[String], files: &mut F, out: &mut O) -> Ending
    ensures { Ends (map string_bytes words.now)
        (outside (disk (F.held files.old) (F.writes files.old)) (F.reads files.old) (output (O.written out.old) (O.faults out.old)))
        (outside (disk (F.held files.new) (F.writes files.new)) (F.reads files.new) (output (O.written out.new) (O.faults out.new)))
        result }
{
    match row_named(words) {
        None => print(out, b"xom: words\n", Ending::NoRow, Ending::NoRow),
        Some(row) => {
            let answered = answer(alloc, row, files);
            finish(alloc, answered, files, out)
        }
    }
}

/// What a row's command answers.
fn answer<F: Files>(alloc: Global, row: Row<'_>, files: &mut F) -> Result<Answer, Stop>
    ensures meets { Meets (F.held files.old) (IsOutcome (row_of_words_of row.entry)) (F.reads files.old) (F.reads files.new) result }
    ensures done { IfOk result (λ answer. IsDone answer.status) }
    ensures follow { IfOk result (λ _. RowFollows (F.held files.old) (row_of_words_of row.entry)) }
    ensures names { F.held files.new ≡ F.held files.old }
    ensures writes { F.writes files.new ≡ F.writes files.old }
{
    match row {
        Row::Asm { source, image } => asm(alloc, files, source, image),
        Row::Disasm { image } => disasm(alloc, files, image),
        Row::Plain {
            image,
            steps,
            received,
        } => plain(alloc, files, image, steps, received),
        Row::Seal {
            image,
            key,
            id,
            machine,
            sealed,
        } => seal(alloc, files, image, key, id, &machine, sealed),
        Row::Run { run: name } => run(alloc, files, name),
        Row::Trace { run: name, journal } => trace(alloc, files, name, journal),
        Row::Judge { run: name, journal } => judge(alloc, files, name, journal),
        Row::Debug {
            run: name,
            commands,
        } => debug(alloc, files, name, commands),
    }
}
