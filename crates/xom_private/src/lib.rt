//! Private memory of the hostile machine, in code: the cache before sealed RAM.
//!
//! Contracts see the core's record in the model's words, and the room that the journal has beside it.
#![tactic(auto)]

mod access;
mod flush;
mod lines;
mod parts;
mod place;
mod write;

pub use parts::{Core, EVENT_ROOM};
