//! What the short forms of the assembler mean, in the subject's own words: laws, and no code.
//!
//! `li`, `la`, `move`, `nop` and `b` are said here by what their words do to the cells and to the pair,
//! where memory has them at their place, as the image of a source has.
#![tactic(auto)]

mod laws;

pub use laws::{
    blanks_and_comments_say_nothing, numbers_stand_for_labels, places_are_written_once,
    short_forms_mean_what_they_say, statements_stand_in_images, words_do_what_guests_do,
};
