//! The tagged registers: each cell has a value and the compartment that it belongs to.
//!
//! Contracts see the list of cells.
#![tactic(auto)]

mod cell;
mod cells;

pub use cell::Cell;
pub use cells::Cells;
