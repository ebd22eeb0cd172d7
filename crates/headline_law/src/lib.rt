//! The headline over the whole machine's definitions: where the judge's report of a journal names
//! neither a forgery nor a collision, every guest in it follows its owner's program. Laws, and no
//! code.
#![tactic(auto)]

mod laws;

pub use laws::every_guest_follows;
