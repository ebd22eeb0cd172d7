//! The cache of private lines, before they are sealed: 32 sets of 4 ways.
//!
//! Contracts see the list of the 128 ways and that of the 32 pointers. A line stands only in the set
//! of its number modulo 32, so looking there finds what a search over all places finds.
#![tactic(auto)]

mod cache;
mod held;
mod way;

pub use cache::LineCache;
pub use held::Held;
pub use way::{Victim, Way};
