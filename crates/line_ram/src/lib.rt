//! The machine's memory: a row of frames of 8,192 bytes, which every kernel write and bus write
//! reaches.
//!
//! Contracts see the list of its bytes. Nothing here allocates but `LineRam::new`.
#![tactic(auto)]

mod laws;
mod pair;
mod ram;

pub use laws::ranges_are_kept_apart;
pub use pair::line_of;
pub use ram::LineRam;
