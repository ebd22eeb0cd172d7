//! The instruction set in the subject's own words: laws over what instructions do, and no code.
//!
//! Division, products, unaligned words, what is stored and loaded again, sums, shifts, comparisons
//! and branches are said here as whole numbers and bytes, of the instructions of `mips_effect`
//! themselves (MIPS I; Kane and Heinrich, MIPS RISC Architecture, appendix A).
#![tactic(auto)]

mod accesses;
mod numbers;
mod owned;

pub use accesses::{stored_values_are_read_back, unaligned_words_go_by_halves};
pub use numbers::{
    branches_go_where_conditions_hold, comparisons_are_less_than, divisions_divide,
    products_are_whole, shifts_are_powers_of_two, sums_are_whole,
};
pub use owned::owned_cells_are_acted_on;
