//! What is printed and what is listed is assembled again: laws between texts and sources, and no code.
#![tactic(auto)]

mod law;

pub use law::{
    listed_words_are_read_again, listings_are_assembled_again, what_is_printed_is_assembled,
};
