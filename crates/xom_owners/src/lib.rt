//! The owners of guests: who made an image, with which key and under which id.
#![tactic(auto)]

mod owner;

pub use owner::{Owner, OwnerList, owner_of};
