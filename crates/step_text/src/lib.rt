//! The text of one recorded step, printed and read, and the names of a guest's own faults.
//!
//! A text is added to a growing list of bytes, so that printing a million steps makes no list of
//! bytes for each. Numbers of 32 bits are eight hexadecimal digits in lower case; registers, counts,
//! signals and codes are decimal.
#![tactic(auto)]

mod fault;
mod fields;
mod pieces;
mod reading;

pub use fault::fault_name;
pub use fields::push_step;
pub use reading::{fault_in, hex8_in, step_in};
