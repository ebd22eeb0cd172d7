//! What an instruction does, told of the values that it sees: a fault of its own, or the cells
//! that it writes, what it wishes of memory and of the world, and the next pair of addresses.
//!
//! Effects are those of MIPS I (Kane and Heinrich, MIPS RISC Architecture, appendix A) and of this
//! project's own forms of COP2. Nothing here has a state: the caller reads the cells that
//! `sources` names, and carries the answer of `effect` out. `target` and `jump_target` are the addresses
//! that branches and jumps name.
#![tactic(auto)]

mod accesses;
mod acts;
mod cells;
pub mod effects;
mod kinds;
mod loads;
mod products;
mod seen;
mod sums;
mod wish;

pub use acts::effect;
pub use cells::sources;
pub use loads::merge;
pub use seen::{Mode, Seen};
pub use sums::{after, jump_target, target};
pub use wish::{Asked, LoadKind, Wish};
