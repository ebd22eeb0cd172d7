//! RAM before the first event of a run: a kernel's image at address 0, and the guests' sealed images
//! from frame 16 on, each where the machine looks for it. And which machine the program runs.
#![tactic(auto)]

mod guests;
mod laws;
mod lines;
mod loading;
mod shipped;
mod start;

pub use laws::images_are_read_again;
pub use shipped::ShippedMachine;
pub use start::power_on;
