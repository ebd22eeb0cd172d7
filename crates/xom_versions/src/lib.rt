//! How often each line of a guest was sealed: the version stores of the slots, and the law that every
//! kind of store keeps.
//!
//! A store is asked for a line's version before the line is opened, and raises it before the line is
//! sealed again, so that an old sealing isn't taken for the new one. `ChipVersions` keeps the numbers
//! on chip. A store may also keep them in hostile RAM and answer `Torn` where they were changed.
#![tactic(auto)]

mod chip;
mod store;

pub use chip::ChipVersions;
pub use store::{Torn, VersionStore};
