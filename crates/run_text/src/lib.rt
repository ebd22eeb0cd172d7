//! What is said of a run that was made: its console, the line on its events, and whether a guest was
//! stopped in it.
#![tactic(auto)]

pub mod console;
mod events;
mod stops;

pub use events::push_events;
pub use stops::has_stop;
