//! The instruction words of the processor: which number stands for which instruction.
//!
//! `decode` and `encode` are the word grammar in its two directions. Words are those of MIPS I
//! (Kane and Heinrich, MIPS RISC Architecture, appendix A) and of this project's own forms of COP2.
#![tactic(auto)]

mod decoder;
mod encoder;
mod fields;

pub use decoder::decode;
pub use encoder::{encode, fits};
