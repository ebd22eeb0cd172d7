//! The command `judge`: what a journal that was taken away shows of its guests, by the owners of a run
//! file. It reads that file and the owners' images alone, and the journal line by line.
#![tactic(auto)]

mod hearing;
pub mod judge;
mod law;

pub use law::{rows_may_stand, texts_are_read};
