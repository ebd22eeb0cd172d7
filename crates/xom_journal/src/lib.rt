//! The journal: the machine's one record of what it did, entry by entry.
//!
//! Contracts see a list of entries and a number of spare bytes. Room is made by `reserve`, which
//! may want memory; `push` then can't fail. In memory an entry is a record of fixed size, beside one
//! block of the payload bytes of all entries, where a text that was hashed lately isn't put again.
#![tactic(auto)]

mod journal;
mod payloads;
mod recent;
mod record;

pub use journal::Journal;
pub use record::{HashedText, cost};
