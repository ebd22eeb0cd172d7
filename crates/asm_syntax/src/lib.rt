//! Assembler sources: from the lines of a text to labels and statements.
//!
//! A line is cut into lexemes, which `mips_text` names; `line` says what each form of line means, and
//! `read_source` reads all lines of a text, or answers the first that is off the grammar.
#![tactic(auto)]

mod arguments;
mod copies;
mod lexeme;
mod read;
mod statement;

pub use read::read_source;
