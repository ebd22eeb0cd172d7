//! A table of texts, each with a value, for texts that whoever wants a slow look-up may choose.
//!
//! A look-up goes by a fingerprint of 64 bits: SipHash-1-3 of a secret and the text. Who doesn't know the secret
//! can't tell fingerprints beforehand. A look-up is exact whatever the fingerprints are, since texts are compared
//! whole: what the table answers doesn't depend on the secret.
#![tactic(auto)]

mod table;

pub use table::TextTable;
