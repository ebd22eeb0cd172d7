ghost use Rattle.std.specs.Prelude.{◌≡◌, ◌+◌, ◌∷◌, ◌++◌, [], OnOk};
ghost use Rattle.text_lines.specs.Lines.{AnswersRead, AnswersText, lines_of, made_of, read_from};
ghost use Rattle.journal_text.specs.JournalLines.{journal_step};
ghost use Rattle.journal_text.specs.Readings.{IsBadJournalLine, IsJournal, entries_alone, entries_read};

use crate::line_reader::{BadLine, LineReader};
use std::alloc::Global;
use text_lines::{TextFault, first_line};
use xom_base::{ByteList, Entry, NoMemory};
use xom_journal::{Journal, cost};

/// Reads a journal's text: one entry a line, by the general rules of lines, words and comments. The fault
/// is `Line` with the number of the first bad line, counted from 1, or `NoMemory`. It costs time linear in
/// the text, and memory for the journal alone.
pub fn read_journal(alloc: Global, text: &ByteList) -> Result<Journal, TextFault>
    ensures { AnswersText (IsJournal text.now) (IsBadJournalLine (lines_of text.now)) (entries_read result) }
{
    journal_in(alloc, text.as_slice())
}

fn journal_in(alloc: Global, text: &[u8]) -> Result<Journal, TextFault>
    ensures { AnswersRead (made_of entries_alone (read_from journal_step 0 1 (lines_of text.now))) (entries_read result) }
{
    let mut journal = Journal::new(alloc);
    let mut reader = LineReader::new();
    let mut rest = text;
    while !rest.is_empty() {
        let (line, after) = first_line(rest);
        match reader.next(line) {
            Ok(Some(entry)) => add(&mut journal, &entry)?,
            Ok(None) => {}
            Err(BadLine(n)) => return Err(TextFault::Line(n)),
        }
        rest = after;
    }
    Ok(journal)
}

/// Adds an entry, with room for it.
fn add(journal: &mut Journal, entry: &Entry) -> Result<(), NoMemory>
    ensures { OnOk result (journal.new.entries ≡ journal.old.entries ++ entry.now ∷ []) }
{
    journal.reserve(cost(entry))?;
    journal.push(entry);
    Ok(())
}
