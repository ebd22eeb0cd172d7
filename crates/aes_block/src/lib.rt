//! AES-128, the block cipher of FIPS 197: a schedule of round keys made once from a key, and the
//! encryption of one block of 16 bytes under it.
//!
//! A round looks each byte of the state up in one of four tables of 256 words, which hold SUBBYTES and
//! MIXCOLUMNS together. Nothing here takes memory or fails. No claim is made of the time that a block
//! takes, which may depend on key and block.
#![tactic(auto)]

mod cipher;
mod columns;
mod expansion;
mod key;
mod laws;
mod schedule;
mod table;
mod word;

pub use key::Key128;
pub use laws::blocks_are_bytes;
pub use schedule::Schedule;
pub use table::s_box;
