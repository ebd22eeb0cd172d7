ghost use Rattle.std.specs.Prelude.{◌≡◌, ◌≤◌, ◌<◌, ◌+◌, ◌++◌, ◌∷◌, IfOk, OnOk, length, drop, take, max, min, slice_get};
ghost use Rattle.std.specs.List.{prefix_len};
ghost use Rattle.std.specs.Option.{option_to_list};
ghost use Rattle.trace_picture.specs.Lanes.{column_length as column_length_of, column_size as column_size_of, columns_by, is_hash as is_hash_entry, is_some_hash};

use crate::lanes::is_hash;
use std::alloc::Global;
use xom_base::{Entry, List, NoMemory};
use xom_journal::Journal;

/// In a journal of so many entries a column holds one.
const SHORT: u64 = 100_000;

/// How many entries stand in a column, of a journal of so many.
pub fn column_size(entries: u64) -> u64
    ensures { result ≡ column_size_of entries }
{
    entries.saturating_sub(1) / SHORT + 1
}

/// How many hashes stand together from this entry on.
#[tactic(auto, using(crate::proofs::Steps::hash_on, crate::proofs::Steps::hash_end))]
fn hash_run(journal: &Journal, start: u64) -> u64
    requires { start ≤ length journal.now.entries }
    ensures value { result ≡ prefix_len is_hash_entry (drop start journal.now.entries) }
{
    let _len = journal.len();
    let mut at = start;
    while is_hash_at(journal, at) {
        at += 1;
    }
    at - start
}

/// Whether the machine hashed a text by this entry.
fn is_hash_at(journal: &Journal, at: u64) -> bool
    ensures { result ≡ is_some_hash (slice_get journal.now.entries at) }
{
    match journal.get(at) {
        Some(entry) => is_hash(&entry),
        None => false,
    }
}

/// How many entries stand in the column that begins with this one.
fn cut(journal: &Journal, start: u64, size: u64) -> u64
    requires { start ≤ length journal.now.entries }
    ensures { result ≡ min (column_length_of size (drop start journal.now.entries)) (length (drop start journal.now.entries)) }
{
    size.max(hash_run(journal, start))
        .min(journal.len() - start)
}

/// The same where there is such an entry.
#[tactic(auto, using(crate::proofs::Steps::column_some, crate::proofs::Steps::column_within, crate::proofs::Steps::columns_on))]
pub fn column_length(journal: &Journal, start: u64, size: u64) -> u64
    requires size { 1 ≤ size }
    requires below { start < length journal.now.entries }
    ensures some { 1 ≤ result }
    ensures within { start + result ≤ length journal.now.entries }
    ensures columns { columns_by size (drop start journal.now.entries) ≡ take result (drop start journal.now.entries) ∷ columns_by size (drop (start + result) journal.now.entries) }
{
    cut(journal, start, size)
}

/// So many entries of a journal, from this one on.
pub fn entries_at(
    alloc: Global,
    journal: &Journal,
    start: u64,
    count: u64,
) -> Result<List<Entry>, NoMemory>
    requires { start + count ≤ length journal.now.entries }
    ensures { IfOk result (λ list. list ≡ take count (drop start journal.now.entries)) }
{
    let _len = journal.len();
    let mut list = List::new(alloc);
    for i in start..start + count {
        push_at(&mut list, journal, i)?;
    }
    Ok(list)
}

/// Adds the entry at a place, if there is one.
fn push_at(list: &mut List<Entry>, journal: &Journal, i: u64) -> Result<(), NoMemory>
    ensures { OnOk result (list.new ≡ list.old ++ option_to_list (slice_get journal.now.entries i)) }
{
    if let Some(entry) = journal.get(i) {
        list.push(entry)?;
    }
    Ok(())
}

/// How many columns a journal has. It looks at each entry twice at most.
pub fn column_count(journal: &Journal, size: u64) -> u64
    requires { 1 ≤ size }
    ensures { result ≡ length (columns_by size journal.now.entries) }
{
    let mut count = 0;
    let mut start = 0;
    while start < journal.len() {
        start += column_length(journal, start, size);
        count += 1;
    }
    count
}
