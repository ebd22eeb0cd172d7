//! Laws of the field that AES computes in, and no code. They are found by computation over all bytes.
#![tactic(auto)]

mod laws;

pub use laws::inverses_are_inverse;
