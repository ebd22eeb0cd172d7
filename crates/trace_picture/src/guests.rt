ghost use Rattle.std.specs.Prelude.{◌≡◌, ◌-◌, ◌++◌, [], All, IfOk, OnOk, length, slice_index_or, slice_set, true};
ghost use Rattle.std.specs.List.{cons_option, filter_map};
ghost use Rattle.trace_picture.specs.GuestTable.{IsSmall, end_told_by as end_told_by_entry, exit_in as exit_in_step, first_end as first_end_of, fresh_row as fresh_row_of, guest_rows as guest_rows_of, is_install_among, is_step_of, is_trap_of, row_after, rows_after};

use crate::lanes::lane;
use std::alloc::Global;
use xom_base::{Entry, ImageId, NoMemory, Rule, StepEnd};
use xom_journal::Journal;

/// How an install ended, by the first of its exit, its Stop and its Kill.
#[derive(Clone, Copy)]
pub enum InstallEnd {
    /// By none of these as yet.
    Open,
    /// By `xexit`.
    Ended,
    /// It was stopped by this rule.
    Stopped(Rule),
    /// The kernel freed its slot.
    Killed,
}

/// What the table says of an install.
#[derive(Clone, Copy)]
pub struct GuestRow {
    /// Its slot, 1 to 16.
    pub slot: u8,
    /// The id that its envelope names.
    pub id: ImageId,
    /// How many steps it made.
    pub steps: u64,
    /// How many times it trapped.
    pub traps: u64,
    /// How it ended.
    pub end: InstallEnd,
}

/// The rows of a journal's installs, in their order. It costs time linear in the journal.
pub fn guest_rows(alloc: Global, journal: &Journal) -> Result<Vec<GuestRow>, NoMemory>
    ensures { IfOk result (λ rows. rows.items ≡ guest_rows_of journal.now.entries) }
{
    let mut rows = fresh_rows(alloc, journal)?;
    for i in 0..journal.len() {
        if let Some(entry) = journal.get(i) {
            count(&mut rows, &entry);
        }
    }
    Ok(rows)
}

/// A row for each install, with nothing counted.
fn fresh_rows(alloc: Global, journal: &Journal) -> Result<Vec<GuestRow>, NoMemory>
    ensures { IfOk result (λ rows. rows.items ≡ filter_map fresh_row_of journal.now.entries) }
{
    let mut rows = Vec::new(alloc);
    for i in 0..journal.len() {
        if let Some(entry) = journal.get(i) {
            push_fresh(&mut rows, &entry)?;
        }
    }
    Ok(rows)
}

/// Adds the row of an Install entry, and nothing for another one.
fn push_fresh(rows: &mut Vec<GuestRow>, entry: &Entry) -> Result<(), NoMemory>
    ensures { OnOk result (rows.new.items ≡ rows.old.items ++ cons_option (fresh_row_of entry.now) []) }
{
    if let Some(row) = fresh_row(entry) {
        rows.push(row)?;
    }
    Ok(())
}

/// The row of an Install entry, with nothing counted.
fn fresh_row(entry: &Entry) -> Option<GuestRow>
    ensures { result ≡ fresh_row_of entry.now }
{
    match *entry {
        Entry::Install { slot, id, .. } => Some(GuestRow {
            slot,
            id,
            steps: 0,
            traps: 0,
            end: InstallEnd::Open,
        }),
        _ => None,
    }
}

/// Counts an entry in the row of its install.
#[tactic(auto, using(crate::proofs::GuestLaws::rows_changed, crate::proofs::GuestLaws::rows_same))]
fn count(rows: &mut Vec<GuestRow>, entry: &Entry)
    requires { All IsSmall rows.old.items }
    ensures { rows.new.items ≡ rows_after 1 entry.now rows.old.items }
{
    let install = lane(entry);
    let guests = rows.len() as u64;
    if is_of_guest(install, guests) {
        count_at(rows, install, entry);
    }
}

/// Whether this is the number of one of so many guests.
fn is_of_guest(install: u64, guests: u64) -> bool
    ensures { result ≡ is_install_among guests install }
{
    install > 0 && install <= guests
}

/// Counts an entry of an install that has a row.
fn count_at(rows: &mut Vec<GuestRow>, install: u64, entry: &Entry)
    requires small { All IsSmall rows.old.items }
    requires within { is_install_among (length rows.old.items) install ≡ true }
    ensures of_guest { is_install_among (length rows.old.items) install ≡ true }
    ensures changed { (d : GuestRow) → rows.new.items ≡ slice_set rows.old.items (install - 1) (row_after install entry.now (slice_index_or rows.old.items (install - 1) d)) }
{
    let place = (install - 1) as usize;
    let row = counted(&rows[place], install, entry);
    rows[place] = row;
}

/// A row with one more entry of its install.
fn counted(row: &GuestRow, install: u64, entry: &Entry) -> GuestRow
    requires { IsSmall row.now }
    ensures { result ≡ row_after install entry.now row.now }
{
    GuestRow {
        slot: row.slot,
        id: row.id,
        steps: row.steps + u64::from(is_step(install, entry)),
        traps: row.traps + u64::from(is_trap(install, entry)),
        end: first_end(row.end, end_told_by(install, entry)),
    }
}

/// The earlier of two ends, of which either may be open.
fn first_end(end: InstallEnd, later: InstallEnd) -> InstallEnd
    ensures { result ≡ first_end_of end later }
{
    match end {
        InstallEnd::Open => later,
        InstallEnd::Ended => end,
        InstallEnd::Stopped(_) => end,
        InstallEnd::Killed => end,
    }
}

/// The end of this install that an entry records, or `Open` where it records none.
fn end_told_by(wanted: u64, entry: &Entry) -> InstallEnd
    ensures { result ≡ end_told_by_entry wanted entry.now }
{
    match *entry {
        Entry::Step { install, step } if install == wanted => exit_in(step.end),
        Entry::Stop { install, rule } if install == wanted => InstallEnd::Stopped(rule),
        Entry::Kill { install } if install == wanted => InstallEnd::Killed,
        _ => InstallEnd::Open,
    }
}

/// Whether a step is the last one.
fn exit_in(end: StepEnd) -> InstallEnd
    ensures { result ≡ exit_in_step end }
{
    match end {
        StepEnd::Goes | StepEnd::Call(_) => InstallEnd::Open,
        StepEnd::Exit => InstallEnd::Ended,
    }
}

/// Whether the entry is a step of this install.
fn is_step(wanted: u64, entry: &Entry) -> bool
    ensures { result ≡ is_step_of wanted entry.now }
{
    match *entry {
        Entry::Step { install, .. } => install == wanted,
        _ => false,
    }
}

/// Whether the entry is a trap of this install.
fn is_trap(wanted: u64, entry: &Entry) -> bool
    ensures { result ≡ is_trap_of wanted entry.now }
{
    match *entry {
        Entry::Trap { install, .. } => install == wanted,
        _ => false,
    }
}
