ghost use Rattle.std.specs.Prelude.{◌≡◌, ◌≤◌, ◌+◌, ◌++◌, IfOk, OnOk, length};
ghost use Rattle.trace_picture.specs.Lanes.{column_size as column_size_of, columns_of};
ghost use Rattle.trace_picture.specs.Marks.{ShowEachOnce, marks_of};
ghost use Rattle.trace_picture.specs.Pages.{column_width_text, fit_text, frame_text, head_text, journal_page, key_text, kinds_text, lanes_text, layout_text, page_text, picture_text, summary_text};

use crate::GuestRow;
use crate::columns::{column_count, column_size};
use crate::guests::guest_rows;
use crate::marks::push_marks;
use crate::table::{push_lane_names, push_table};
use std::alloc::Global;
use text_pieces::{push_decimal64, push_text};
use xom_base::{ByteList, NoMemory};
use xom_journal::Journal;

/// The page that shows a journal. It costs time linear in the journal's text, but in a column of a
/// journal of more than 100,000 entries time quadratic in its lanes; and memory for the page.
#[tactic(auto, using(crate::proofs::MarkLaws::show_each_once))]
pub fn print_page(alloc: Global, journal: &Journal) -> Result<ByteList, NoMemory>
    ensures page { IfOk result (λ page. page ≡ journal_page journal.now.entries) }
    // Each entry has one mark of the page, in its lane.
    ensures once { ShowEachOnce journal.now.entries (marks_of journal.now.entries) }
{
    let rows = guest_rows(alloc, journal)?;
    let mut text = Vec::new(alloc);
    push_head(&mut text)?;
    push_summary(&mut text, journal.len())?;
    push_text(&mut text, key())?;
    push_text(&mut text, fit())?;
    push_picture(alloc, &mut text, journal, rows.as_slice())?;
    push_table(&mut text, rows.as_slice())?;
    Ok(ByteList::from_vec(text))
}

/// Adds what stands in front of every page.
fn push_head(text: &mut Vec<u8>) -> Result<(), NoMemory>
    ensures { OnOk result (text.new.items ≡ text.old.items ++ head_text) }
{
    push_text(text, layout())?;
    push_text(text, kinds())
}

/// The page's title, and how it is laid out.
fn layout() -> &'static str
    ensures { result.now ≡ layout_text }
{
    "\
     <!DOCTYPE html>\n\
     <html lang=\"en\">\n\
     <meta charset=\"utf-8\">\n\
     <title>Journal</title>\n\
     <style>\n\
     body{font:14px/20px sans-serif;margin:16px}.picture{display:flex;margin:16px 0}\n\
     ol{list-style:none;margin:0;padding:0 12px 0 0;white-space:nowrap}\n\
     li{height:24px;line-height:24px}.time{flex:1;overflow-x:auto}\n\
     svg{display:block;background:repeating-linear-gradient(#f1f3f6 0 23px,#fff 23px 24px)}\n\
     #fit:checked~.picture svg{width:100%!important}\n\
     th,td{padding:2px 12px 2px 0;text-align:left}td:nth-child(3){font-family:monospace}\n\
     .key span{border-left:12px solid;padding:0 16px 0 4px}\n"
}

/// How the marks of each kind of entry are drawn: their colour and height.
fn kinds() -> &'static str
    ensures { result.now ≡ kinds_text }
{
    "\
     rect{width:.8px;fill:currentColor}\n\
     .install{color:#2b8a3e;height:.9px}.step{color:#3b6ea5;height:.3px}\n\
     .trap{color:#e8890c;height:.7px}.kill{color:#555;height:.9px}\n\
     .seal{color:#7048c8;height:.35px}.accept{color:#0c8599;height:.35px}\n\
     .hash{color:#9aa3ad;height:.2px}.out{color:#c2255c;height:.5px}\n\
     .stop{color:#e00000;height:.9px}\n\
     rect.stop{stroke:#e00000;stroke-width:3px;vector-effect:non-scaling-stroke}\n\
     </style>\n"
}

/// Adds how many entries there are, and how many stand in a column.
fn push_summary(text: &mut Vec<u8>, entries: u64) -> Result<(), NoMemory>
    ensures { OnOk result (text.new.items ≡ text.old.items ++ summary_text entries) }
{
    push_text(text, "<h1>")?;
    push_decimal64(text, entries)?;
    push_text(text, " entries</h1>\n<p>Entries a column: ")?;
    push_decimal64(text, column_size(entries))?;
    push_text(text, ". Hashes that follow one another share a column.\n")
}

/// The key to the kinds of entries.
fn key() -> &'static str
    ensures { result.now ≡ key_text }
{
    "\
     <p class=\"key\"><span class=\"install\">install</span><span class=\"step\">step</span>\n\
     <span class=\"trap\">trap</span><span class=\"stop\">stop</span>\n\
     <span class=\"kill\">kill</span><span class=\"seal\">seal</span>\n\
     <span class=\"accept\">accept</span><span class=\"hash\">hash</span>\n\
     <span class=\"out\">console byte</span>\n"
}

/// The box that shows a long picture as a whole.
fn fit() -> &'static str
    ensures { result.now ≡ fit_text }
{
    "\
     <input type=\"checkbox\" id=\"fit\"><label for=\"fit\">fit the window</label>\n"
}

/// Adds the lanes with their names and their marks.
fn push_picture(
    alloc: Global,
    text: &mut Vec<u8>,
    journal: &Journal,
    rows: &[GuestRow],
) -> Result<(), NoMemory>
    ensures { OnOk result (text.new.items ≡ text.old.items ++ picture_text journal.now.entries rows.now) }
{
    push_lanes(text, rows)?;
    push_frame(text, columns(journal), lane_count(rows))?;
    push_marks(alloc, text, journal, column_size(journal.len()))?;
    push_text(text, "</svg></div></div>\n")
}

/// How many columns a journal has.
fn columns(journal: &Journal) -> u64
    ensures { result ≡ length (columns_of journal.now.entries) }
{
    column_count(journal, column_size(journal.len()))
}

/// How many lanes there are: one for memory and one a guest.
fn lane_count(rows: &[GuestRow]) -> u64
    ensures { result ≡ length rows.now + 1 }
{
    rows.len() as u64 + 1
}

/// Adds the names of the lanes.
fn push_lanes(text: &mut Vec<u8>, rows: &[GuestRow]) -> Result<(), NoMemory>
    ensures { OnOk result (text.new.items ≡ text.old.items ++ lanes_text rows.now) }
{
    push_text(text, "<div class=\"picture\"><ol><li>memory\n")?;
    push_lane_names(text, rows)?;
    push_text(text, "</ol><div class=\"time\">\n")
}

/// Adds the picture's frame: so many columns and lanes.
fn push_frame(text: &mut Vec<u8>, columns: u64, lanes: u64) -> Result<(), NoMemory>
    ensures { OnOk result (text.new.items ≡ text.old.items ++ frame_text columns lanes) }
{
    push_text(text, "<svg preserveAspectRatio=\"none\" viewBox=\"0 0 ")?;
    push_decimal64(text, columns)?;
    push_text(text, " ")?;
    push_decimal64(text, lanes)?;
    push_text(text, "\" style=\"width:calc(")?;
    push_decimal64(text, columns)?;
    push_text(text, "*")?;
    push_text(text, column_width(columns))?;
    push_text(text, ");height:calc(")?;
    push_decimal64(text, lanes)?;
    push_text(text, "*24px)\">\n")
}

/// How wide a column is, by their number.
fn column_width(columns: u64) -> &'static str
    ensures { result.now ≡ column_width_text columns }
{
    if columns <= 100 {
        "12px"
    } else if columns <= 1000 {
        "6px"
    } else {
        "2px"
    }
}
