//! The plain machine: a guest's program run alone, given the values that it receives.
//!
//! It is what an owner may still believe of a guest that ran under a hostile kernel. Nothing of
//! the machine that runs guests stands in it.
#![tactic(auto)]

mod cell;
mod given;
mod instruction;
mod law;
mod machine;
mod memory;
mod verdict;

pub use cell::PlainCell;
pub use given::{Given, PlainStep};
pub use instruction::{
    fetch, handler_after, kept_after, returned, signal_step, step_made, takes_signal, word_for,
};
pub use law::verdict_is_a_run;
pub use machine::Plain;
pub use memory::Memory;
pub use verdict::Verdict;
