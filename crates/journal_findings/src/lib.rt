//! What a journal shows to be forged, or to collide: the definitions that the judge and the machine
//! share, with their laws. There is no code in it.
#![tactic(auto)]

mod laws;

pub use laws::findings_stay;
