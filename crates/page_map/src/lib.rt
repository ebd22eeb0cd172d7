//! Which frame of RAM holds each private page of each slot.
//!
//! Contracts see, for each compartment, the list of its 256 pages with their frames.
#![tactic(auto)]

mod fault;
mod map;

pub use fault::{Mapped, NotMapped};
pub use map::{PAGES, PageMap};
