//! The program `picture`: the page that shows a journal, from words, files and a sink to a status.
#![tactic(auto)]

mod draw;
mod top;

pub use top::picture;
