//! What everything else speaks of: keys, lists of bytes, events, steps and journal entries.
//!
//! The values say nothing of the machine: what they mean there is said in the crates above. `List` is
//! the one list of items.
#![tactic(auto)]

mod entry;
mod event;
mod image;
mod key;
mod list;
mod payload;
mod schedule;
mod step;

pub use entry::Entry;
pub use event::{Cause, Event, Op, OwnFault, Rule};
pub use image::PlainImage;
pub use key::{ImageId, Key256};
pub use list::{ByteList, List, NoMemory, NumberList};
pub use payload::{Block, Payload, Short};
pub use schedule::{Interrupts, Poke, PokeList, Schedule};
pub use step::{Received, Released, Step, StepEnd, Stored, Writes, step_eq};
