//! The instructions of the processor, as a type. Its definitions say which number is the word of which
//! instruction, and what the 32-bit numbers are that instructions compute with.
//!
//! Instructions are those of MIPS I (Kane and Heinrich, MIPS RISC Architecture, appendix A) and of
//! this project's own forms of COP2.
#![tactic(auto)]

mod instruction;

pub use instruction::Ins;
