//! Journals as texts, both ways: one entry a line.
//!
//! `print_journal` writes the text of a journal, and `read_journal` reads one again; `LineReader` reads a
//! text line by line and takes no memory. A journal's text may be anyone's, so the reader checks all that
//! a line says by itself: ranges, the digest of a hash line, and that installs are numbered in order.
#![tactic(auto)]

mod line_reader;
mod printing;
mod reading;
mod rows;

pub use line_reader::{BadLine, LineReader};
pub use printing::{print_journal, push_line, push_rule};
pub use reading::read_journal;
