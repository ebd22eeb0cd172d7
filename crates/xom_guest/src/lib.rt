//! One event of a running guest: an instruction that retires, or what stands against it, and the
//! trap or the end that may follow.
//!
//! Contracts see the core's record in the model's words, and the room that the journal has beside it.
#![tactic(auto)]

mod cells;
mod event;
mod lines;
mod masks;
mod memory;
mod retire;
mod session;

pub use event::guest_event;
