//! The laws of the whole machine whose clauses speak of versions on chip, said of versions in a tree of
//! hashes in hostile RAM: the headline, and the rules of the journal's text. No code.
#![tactic(auto)]

mod laws;

pub use laws::the_tree_serves_the_whole_machine;
