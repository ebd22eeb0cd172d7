//! A picture of a journal: one page of HTML that shows what became of each guest.
//!
//! The picture has a lane for each install and one for memory, and the time goes from left to right. A
//! mark stands for an entry, with its line of the journal as the title; in a long journal it stands
//! for all entries of its lane in its column. Below it stands a table of the guests.
#![tactic(auto)]

mod columns;
mod guests;
mod lanes;
mod marks;
mod page;
mod table;

pub use guests::{GuestRow, InstallEnd};
pub use page::print_page;
