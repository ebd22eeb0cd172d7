//! Instructions and images as text: `print` and `listing` print by the table of `mips_forms`.
#![tactic(auto)]

mod disassembly;
mod law;
mod pieces;
mod printing;

pub use disassembly::listing;
pub use law::texts_are_exact;
pub use printing::print;
