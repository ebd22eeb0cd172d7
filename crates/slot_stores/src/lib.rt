//! The version store of each slot: it says how often each line of the slot's guest was sealed.
//!
//! Contracts see the stores as a list, with the null compartment's at place 0. Nothing here allocates
//! but `StoreList::new`.
#![tactic(auto)]

mod stores;

pub use stores::StoreList;
