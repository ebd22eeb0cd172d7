ghost use Rattle.std.specs.Prelude.{◌≡◌, [], IfOk, string_bytes};
ghost use Rattle.cli_base.specs.Commands.{IsDone, writes};
ghost use Rattle.cli_base.specs.Readings.{Meets};
ghost use Rattle.cli_picture.specs.Picture.{Draws, IsDrawn, page_answer as page_answer_of};

use cli_base::{Answer, InputFault, Stop, bad, fetch};
use journal_text::read_journal;
use std::alloc::Global;
use text_lines::TextFault;
use trace_picture::print_page;
use xom_base::{ByteList, NoMemory};
use xom_io::{Files, Name};
use xom_journal::Journal;

/// The most bytes of a journal's text.
const JOURNAL_LIMIT: u64 = 268_435_456;

/// The page of a journal, as the file of this name.
pub fn draw<F: Files>(
    alloc: Global,
    files: &mut F,
    journal: &String,
    page: &String,
) -> Result<Answer, Stop>
    ensures meets { Meets (F.held files.old) (Draws (string_bytes journal.now) (string_bytes page.now))
        (F.reads files.old) (F.reads files.new) result }
    ensures done { IfOk result (λ answer. IsDone answer.status) }
    ensures names { F.held files.new ≡ F.held files.old }
    ensures writes { F.writes files.new ≡ F.writes files.old }
{
    let text = fetch(files, journal, JOURNAL_LIMIT)?;
    draw_text(alloc, journal, &text, page)
}

/// The page of a journal's text, or its first bad line.
fn draw_text(
    alloc: Global,
    journal: &String,
    text: &ByteList,
    page: &String,
) -> Result<Answer, Stop>
    ensures drawn { IsDrawn (string_bytes journal.now) text.now (string_bytes page.now) result }
    ensures done { IfOk result (λ answer. IsDone answer.status) }
{
    match read_journal(alloc, text) {
        Ok(read) => Ok(page_answer(alloc, &read, page)?),
        Err(TextFault::Line(n)) => Err(bad(journal, InputFault::BadLine(n))),
        Err(TextFault::NoMemory) => Err(Stop::NoMemory),
    }
}

/// The page of a journal as a file of this name.
fn page_answer(alloc: Global, journal: &Journal, page: &String) -> Result<Answer, NoMemory>
    ensures { IfOk result (λ answer. answer ≡ page_answer_of journal.now.entries (string_bytes page.now)) }
{
    let bytes = print_page(alloc, journal)?;
    file_answer(alloc, bytes, page)
}

/// The answer that writes a file of this name and prints nothing.
fn file_answer(alloc: Global, bytes: ByteList, name: &String) -> Result<Answer, NoMemory>
    ensures { IfOk result (λ answer. answer ≡ writes [] (string_bytes name.now) bytes) }
{
    let name = Name::new(name.clone()?);
    Ok(Answer::of_file(ByteList::new(alloc), name, bytes))
}
