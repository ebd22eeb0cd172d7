//! How a call ends: what a command answered is delivered. Its file is put first, then its text is printed,
//! or the line of its refusal; and the status says which of these came about.
#![tactic(auto)]

mod delivery;
mod ending;

pub use delivery::{finish, print};
pub use ending::Ending;
