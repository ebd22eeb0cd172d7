//! The whole hostile machine: what one event does, what a kernel is told, and runs of a kernel over
//! it, beside the interrupt line and the writes of the bus.
//!
//! Contracts see a machine as its record and the journal's room. Every event is a function of the
//! record, and keeps what the machine keeps of each guest, whatever the kernel does, while the
//! journal is honest.
#![tactic(auto)]

mod chunk;
mod kernel;
mod machine;
mod next;
mod runs;

pub use chunk::Chunk;
pub use kernel::Kernel;
pub use machine::Machine;
pub use machine::view::View;
pub use next::next_event;
pub use runs::run;
pub use xom_model::outcome::{NullFault, Outcome, RunEnd, Turn};
