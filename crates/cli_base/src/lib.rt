//! What the commands have in common: what each answers or refuses, and how each reads its files.
#![tactic(auto)]

mod answer;
mod reading;
mod refusal;

pub use answer::{Answer, OutputFile};
pub use reading::{bad, fetch, image, lined, of_file};
pub use refusal::{InputFault, InputStop, Refusal, SourceFault, Stop};
