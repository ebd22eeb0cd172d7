//! What an assembler source says, line by line: its labels and its statements.
#![tactic(auto)]

mod argument;
mod content;
mod name;

pub use argument::{Argument, Value};
pub use content::{Content, Part};
pub use name::SourceName;
