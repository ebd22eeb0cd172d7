ghost use Rattle.std.specs.Prelude.{◌≡◌, ◌+◌, ◌++◌, OnOk};
ghost use Rattle.trace_picture.specs.GuestTable.{guest_row_text, guest_rows_text, id_cell_text, install_end_text, lane_name_text, lane_names_text, number_cell_text};
ghost use Rattle.trace_picture.specs.Pages.{table_text};

use crate::{GuestRow, InstallEnd};
use journal_text::push_rule;
use text_pieces::{push_decimal64, push_hex, push_text};
use xom_base::{ImageId, NoMemory};

/// Adds the table of the guests, and the end of the page.
pub fn push_table(text: &mut Vec<u8>, rows: &[GuestRow]) -> Result<(), NoMemory>
    ensures { OnOk result (text.new.items ≡ text.old.items ++ table_text rows.now) }
{
    push_text(
        text,
        "<table>\n<tr><th>install<th>slot<th>id<th>steps<th>traps<th>end\n",
    )?;
    push_rows(text, rows)?;
    push_text(text, "</table>\n</html>\n")
}

/// Adds the rows of the table.
fn push_rows(text: &mut Vec<u8>, rows: &[GuestRow]) -> Result<(), NoMemory>
    ensures { OnOk result (text.new.items ≡ text.old.items ++ guest_rows_text 1 rows.now) }
{
    for i in 0..rows.len() {
        push_row(text, i as u64 + 1, &rows[i])?;
    }
    Ok(())
}

/// Adds the row of an install.
fn push_row(text: &mut Vec<u8>, install: u64, row: &GuestRow) -> Result<(), NoMemory>
    ensures { OnOk result (text.new.items ≡ text.old.items ++ guest_row_text install row.now) }
{
    push_text(text, "<tr>")?;
    push_cell(text, install)?;
    push_slot(text, row.slot)?;
    push_id(text, &row.id)?;
    push_cell(text, row.steps)?;
    push_cell(text, row.traps)?;
    push_text(text, "<td>")?;
    push_end(text, row.end)?;
    push_text(text, "\n")
}

/// Adds a cell with a number.
fn push_cell(text: &mut Vec<u8>, n: u64) -> Result<(), NoMemory>
    ensures { OnOk result (text.new.items ≡ text.old.items ++ number_cell_text n) }
{
    push_text(text, "<td>")?;
    push_decimal64(text, n)
}

/// Adds the cell of a slot.
fn push_slot(text: &mut Vec<u8>, slot: u8) -> Result<(), NoMemory>
    ensures { OnOk result (text.new.items ≡ text.old.items ++ number_cell_text slot) }
{
    push_cell(text, u64::from(slot))
}

/// Adds the cell of an id.
fn push_id(text: &mut Vec<u8>, id: &ImageId) -> Result<(), NoMemory>
    ensures { OnOk result (text.new.items ≡ text.old.items ++ id_cell_text id.now) }
{
    push_text(text, "<td>")?;
    push_hex(text, id.0.as_slice())
}

/// Adds how an install ended, in the words of a judge's report.
fn push_end(text: &mut Vec<u8>, end: InstallEnd) -> Result<(), NoMemory>
    ensures { OnOk result (text.new.items ≡ text.old.items ++ install_end_text end) }
{
    match end {
        InstallEnd::Open => push_text(text, "open"),
        InstallEnd::Ended => push_text(text, "ended"),
        InstallEnd::Stopped(rule) => {
            push_text(text, "stopped ")?;
            push_rule(text, rule)
        }
        InstallEnd::Killed => push_text(text, "killed"),
    }
}

/// Adds the names of the guests' lanes.
pub fn push_lane_names(text: &mut Vec<u8>, rows: &[GuestRow]) -> Result<(), NoMemory>
    ensures { OnOk result (text.new.items ≡ text.old.items ++ lane_names_text 1 rows.now) }
{
    for i in 0..rows.len() {
        push_lane_name(text, i as u64 + 1)?;
    }
    Ok(())
}

/// Adds the name of an install's lane.
fn push_lane_name(text: &mut Vec<u8>, install: u64) -> Result<(), NoMemory>
    ensures { OnOk result (text.new.items ≡ text.old.items ++ lane_name_text install) }
{
    push_text(text, "<li>guest ")?;
    push_decimal64(text, install)?;
    push_text(text, "\n")
}
