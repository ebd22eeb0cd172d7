//! Versions in hostile RAM: a tree of hashes over the numbers of a guest's 32,768 lines, with its root
//! on chip, so that no old line comes back.
//!
//! The tree of a guest takes an area of 411,904 bytes: 4,096 leaves of eight versions, and above them four
//! levels of blocks of eight digests each. A digest is SHA-256 of the block's level as one byte and the
//! block. Whoever changes the area gives himself away at the next check, unless he has two texts of one
//! digest, which then both stand in the journal.
#![tactic(auto)]

mod answers;
mod build;
mod hashing;
mod path;
mod place;
mod stand;
mod tree;

pub use stand::Stand;
pub use tree::TreeVersions;
