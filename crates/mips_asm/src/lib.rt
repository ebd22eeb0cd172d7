//! The assembler: from the text of a source to a plain image.
//!
//! `assemble` reads a source, gives each label and statement its place, and looks for faults kind by
//! kind over the whole text; where there is none, it writes the image. Each kind of fault is a pass of
//! its own over the labels and statements.
#![tactic(auto)]

mod assembly;
mod data;
mod duplicates;
mod entry;
mod fault;
mod fields;
mod image;
mod instructions;
mod labels;
mod law;
mod layout;
mod naming;
mod overlap;
mod placed;
mod ranges;
mod unknown;

pub use assembly::assemble;
pub use fault::AsmFault;
pub use law::{bytes_are_those_of_their_statements, sources_have_one_outcome};
