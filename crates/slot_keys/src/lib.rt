//! The keys of each slot's guest, made ready: whoever seals or opens a line or a register of a
//! guest takes them from here, and derives none.
//!
//! Contracts see the keys alone. Nothing here allocates but `KeyTable::new`.
#![tactic(auto)]

mod keys;
mod table;

pub use keys::SlotKeys;
pub use table::KeyTable;
