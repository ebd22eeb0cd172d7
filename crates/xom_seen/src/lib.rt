//! What the kernel can see of an event, and that it sees no more: laws over the machine in
//! definitions, and no code.
#![tactic(auto)]

mod laws;

pub use laws::{every_machine_is_settled, nothing_else_is_seen};
