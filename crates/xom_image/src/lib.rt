//! Image files: programs as bytes on a disk, plain or sealed.
//!
//! A plain or a sealed image file reads as one image or is bad at one place, and never both. What is
//! written of an image reads as that image again. No tag is looked at here.
#![tactic(auto)]

mod fault;
mod fields;
mod plain;
mod sealed;

pub use fault::ImageFault;
pub use plain::{read_plain, write_plain};
pub use sealed::{read_sealed, write_sealed};
