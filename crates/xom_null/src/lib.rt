//! One instruction of null code, which is the kernel's own: over the cells, RAM and the null pair.
//!
//! It sees no cell of a guest, reaches RAM alone, and asks for operations, which the caller carries
//! out. Nothing here takes memory or copies RAM.
#![tactic(auto)]

mod answers;
mod cells;
mod event;
mod memory;

pub use event::null_event;
pub use xom_model::outcome::NullFault;
