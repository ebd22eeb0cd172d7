//! What every run of the whole machine records keeps the rules of the journal's text, so that it is
//! read again as the same entries: laws between the machine's events and that text, and no code.
#![tactic(auto)]

mod laws;

pub use laws::journals_keep_their_rules;
