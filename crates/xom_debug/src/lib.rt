//! The debugger: a run of the machine under commands, which step it and show what a kernel may see.
//!
//! What it prints is a function of the commands, the events and the views of the machine alone
//! (`debug_text`): no value of a compartment and no private byte is shown.
#![tactic(auto)]

mod command;
mod debugger;
mod printing;
mod reading;
mod session;

pub use command::{Command, CommandList};
pub use debugger::debug;
pub use reading::read_commands;
