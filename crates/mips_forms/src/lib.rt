//! The one table between instructions and their text forms: a mnemonic and operands.
//!
//! `form` gives the form of an instruction, `build` reads the table the other way, and `kinds` says
//! which operands a mnemonic takes. `same_text` compares two texts, the quick tests first.
#![tactic(auto)]

mod building;
mod forms;
mod law;
mod letters;
mod operand;

pub use building::{build, is as same_text, kinds};
pub use forms::{TextForm, form};
pub use law::forms_are_exact;
pub use operand::{Operand, OperandKind, Operands};
