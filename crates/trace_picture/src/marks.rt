ghost use Rattle.std.specs.Prelude.{◌≡◌, ◌≤◌, ◌∷◌, [], ◌++◌, List, OnOk};
ghost use Rattle.std.specs.List.{flat_map};
ghost use Rattle.std.specs.Fmt.{decimal};
ghost use Rattle.xom_base.specs.declared.entry.Entry.{Entry as AnEntry};
ghost use Rattle.journal_text.specs.JournalTexts.{journal_line_text};
ghost use Rattle.trace_picture.specs.Lanes.{columns_by, entries_in, lane_of};
ghost use Rattle.trace_picture.specs.Marks.{class_text, column_marks, drop_text, mark_at, mark_text, marks_from, rectangle_text, telling_of, telling_of_two, weight_of};

use crate::columns::{column_length, entries_at};
use crate::lanes::{is_any_in, is_in, lane};
use journal_text::push_line;
use std::alloc::Global;
use text_pieces::{push_bytes, push_decimal64, push_text};
use xom_base::{Entry, NoMemory};
use xom_journal::Journal;

/// Adds the marks of a journal, column by column. It costs time linear in the journal, and in a column
/// time quadratic in the number of its lanes; memory for the text and for the entries of one column.
pub fn push_marks(
    alloc: Global,
    text: &mut Vec<u8>,
    journal: &Journal,
    size: u64,
) -> Result<(), NoMemory>
    requires { 1 ≤ size }
    ensures { OnOk result (text.new.items ≡ text.old.items ++ flat_map mark_text (marks_from 0 (columns_by size journal.now.entries))) }
{
    let mut column = 0;
    let mut start = 0;
    while start < journal.len() {
        let count = column_length(journal, start, size);
        let entries = entries_at(alloc, journal, start, count)?;
        push_column(text, column, entries.as_slice())?;
        start += count;
        column += 1;
    }
    Ok(())
}

/// Adds the marks of a column.
fn push_column(text: &mut Vec<u8>, column: u64, entries: &[Entry]) -> Result<(), NoMemory>
    ensures { OnOk result (text.new.items ≡ text.old.items ++ flat_map mark_text (column_marks column [] entries.now)) }
{
    for i in 0..entries.len() {
        push_mark_at(text, column, &entries[..i], &entries[i], &entries[i + 1..])?;
    }
    Ok(())
}

/// Adds the mark that begins with an entry, unless one before it in the column is in the same lane.
fn push_mark_at(
    text: &mut Vec<u8>,
    column: u64,
    before: &[Entry],
    entry: &Entry,
    behind: &[Entry],
) -> Result<(), NoMemory>
    ensures { OnOk result (text.new.items ≡ text.old.items ++ flat_map mark_text (mark_at column before.now entry.now behind.now)) }
{
    if is_any_in(lane(entry), before) {
        return Ok(());
    }
    push_mark(text, column, entry, behind)
}

/// Adds the mark of an entry and of those behind it that are in the same lane.
fn push_mark(
    text: &mut Vec<u8>,
    column: u64,
    entry: &Entry,
    behind: &[Entry],
) -> Result<(), NoMemory>
    ensures { OnOk result (text.new.items ≡ text.old.items ++ mark_text (record { column = column; lane = lane_of entry.now; first = entry.now; others = entries_in (lane_of entry.now) behind.now })) }
{
    let lane = lane(entry);
    push_rectangle(text, column, lane, &telling(entry, lane, behind))?;
    push_line(text, entry)?;
    push_lines(text, lane, behind)?;
    push_text(text, "</title></rect>\n")
}

/// Adds a rectangle that is drawn as an entry.
fn push_rectangle(text: &mut Vec<u8>, column: u64, lane: u64, entry: &Entry) -> Result<(), NoMemory>
    ensures { OnOk result (text.new.items ≡ text.old.items ++ rectangle_text column lane entry.now) }
{
    push_text(text, "<rect class=\"")?;
    push_text(text, class(entry))?;
    push_text(text, "\" x=\"")?;
    push_decimal64(text, column)?;
    push_text(text, "\" y=\"")?;
    push_decimal64(text, lane)?;
    push_text(text, drop_below(entry))?;
    push_text(text, "\"><title>")
}

/// Adds the journal's lines of those entries that are in this lane.
fn push_lines(text: &mut Vec<u8>, lane: u64, entries: &[Entry]) -> Result<(), NoMemory>
    ensures { OnOk result (text.new.items ≡ text.old.items ++ flat_map journal_line_text (entries_in lane entries.now)) }
{
    for entry in entries {
        if is_in(lane, entry) {
            push_line(text, entry)?;
        }
    }
    Ok(())
}

/// The entry that tells most, of this one and of those in this lane.
fn telling(first: &Entry, lane: u64, entries: &[Entry]) -> Entry
    ensures { result ≡ telling_of first.now (entries_in lane entries.now) }
{
    let mut telling = *first;
    for entry in entries {
        if is_in(lane, entry) {
            telling = telling_of_both(&telling, entry);
        }
    }
    telling
}

/// Of two entries the one that tells more, the first where they tell the same.
fn telling_of_both(first: &Entry, other: &Entry) -> Entry
    ensures { result ≡ telling_of_two first.now other.now }
{
    if weight(first) < weight(other) {
        *other
    } else {
        *first
    }
}

/// How much an entry tells beside others of its mark.
fn weight(entry: &Entry) -> u8
    ensures { result ≡ weight_of entry.now }
{
    match entry {
        Entry::Step { .. } => 0,
        Entry::Hash { .. } => 1,
        Entry::Seal { .. } => 2,
        Entry::Accept { .. } => 3,
        Entry::Out { .. } => 4,
        Entry::Trap { .. } => 5,
        Entry::Install { .. } => 6,
        Entry::Kill { .. } => 7,
        Entry::Stop { .. } => 8,
    }
}

/// What an entry is drawn as: a class of the page's style.
fn class(entry: &Entry) -> &'static str
    ensures { result.now ≡ class_text entry.now }
{
    match entry {
        Entry::Install { .. } => "install",
        Entry::Step { .. } => "step",
        Entry::Trap { .. } => "trap",
        Entry::Seal { .. } => "seal",
        Entry::Accept { .. } => "accept",
        Entry::Hash { .. } => "hash",
        Entry::Stop { .. } => "stop",
        Entry::Kill { .. } => "kill",
        Entry::Out { .. } => "out",
    }
}

/// How far below the upper edge of its lane an entry's mark begins, in hundredths of the lane.
fn drop_below(entry: &Entry) -> &'static str
    ensures { result.now ≡ drop_text entry.now }
{
    match entry {
        Entry::Install { .. } => ".05",
        Entry::Step { .. } => ".35",
        Entry::Trap { .. } => ".15",
        Entry::Seal { .. } => ".10",
        Entry::Accept { .. } => ".55",
        Entry::Hash { .. } => ".40",
        Entry::Stop { .. } => ".05",
        Entry::Kill { .. } => ".05",
        Entry::Out { .. } => ".25",
    }
}
