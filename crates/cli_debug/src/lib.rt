//! The command `debug`: what the commands of a debugger print of a run.
#![tactic(auto)]

pub mod debug;
