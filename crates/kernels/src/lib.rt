//! Kernels that tell their turns: one that follows a script, and one whose every turn is an instruction
//! of the null code in RAM.
#![tactic(auto)]

mod image_kernel;
mod script_kernel;
mod view_bytes;

pub use image_kernel::ImageKernel;
pub use script_kernel::ScriptKernel;
