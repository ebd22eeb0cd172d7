//! The top call: words, files and a sink to a status.
//!
//! The way of a call: words to a row of the table of commands (`row`); the command of the row, which
//! reads its files and does its work (crates `cli_programs`, `cli_trace`, `cli_judge` and `cli_debug`); its file and its
//! text to the outside, and the status (crate `cli_delivery`).
#![tactic(auto)]

mod law;
mod row;
mod top;

pub use law::words_have_one_outcome;
pub use top::xom_main;
