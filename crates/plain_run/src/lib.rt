//! A program run alone, with its steps as a text: what an owner prints to see what a guest does by
//! itself, given the values that it receives.
//!
//! Nothing of the machine that runs guests stands in it: the steps are those of the plain machine.
#![tactic(auto)]

mod ending;
mod law;
mod received;
mod run;

pub use ending::PlainEnd;
pub use law::run_is_alone;
pub use received::{ReceivedList, read_received};
pub use run::run_alone;
