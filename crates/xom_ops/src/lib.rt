//! The privileged operations of a kernel, over private memory.
//!
//! Each is done, or refused with a status and no change, or it stops a guest for good by a rule.
//! Contracts name the definition that the core and the status are equal to. Nothing here takes memory.
#![tactic(auto)]

mod guests;
mod installs;
mod leave;
mod missing;
mod operations;
mod pages;
mod registers;
mod saves;
mod signal;
mod tests;
mod unmap;

pub use guests::{enter, resume};
pub use installs::install;
pub use leave::{kill, out};
pub use operations::operate;
pub use pages::map_page;
pub use registers::set_register;
pub use saves::{restore_register, save_register};
pub use unmap::unmap_page;
