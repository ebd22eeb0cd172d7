//! What the processor keeps of each slot: which guest it holds, where that guest stands, which
//! registers it owns.
#![tactic(auto)]

mod mask;
mod session;
mod table;

pub use mask::{owns, with_cell, without_cell};
pub use session::{Session, SlotState, SlotView};
pub use table::{SLOTS, Table};
