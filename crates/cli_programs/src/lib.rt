//! The commands on programs: they are assembled, listed, run alone on the plain machine, and sealed.
#![tactic(auto)]

pub mod asm;
pub mod disasm;
pub mod plain;
mod reading;
pub mod seal;
