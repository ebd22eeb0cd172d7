//! What is printed of a journal is read again: laws between entries and their text, and no code.
#![tactic(auto)]

mod law;

pub use law::{a_text_is_one_journal, what_is_printed_is_read_again, what_is_read_keeps_the_rules};
