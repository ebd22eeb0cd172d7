use mips_plain::Verdict;
use xom_base::{ImageId, List, Rule};

/// How a guest ended, by the first of its exit, its Stop and its Kill.
#[derive(Clone, Copy, Debug, PartialEq, Eq)]
pub enum GuestEnd {
    /// By `xexit`.
    Ended,
    /// It was stopped by this rule.
    Stopped(Rule),
    /// The kernel freed its slot.
    Killed,
    /// None of these as yet.
    Running,
}

/// What the report says of one installed guest.
#[derive(Clone, Copy, Debug, PartialEq, Eq)]
pub struct GuestLine {
    /// Its install number.
    pub install: u64,
    /// Its slot, 1 to 16.
    pub slot: u8,
    /// The id that its envelope names.
    pub id: ImageId,
    /// Its steps beside its owner's program.
    pub verdict: Verdict,
    /// How it ended.
    pub end: GuestEnd,
}

/// A growing list of guest lines.
pub type GuestLineList = List<GuestLine>;

/// What a journal shows. Entries count from 1.
#[derive(Debug, Drop)]
pub struct Report {
    /// A line for each Install entry, in their order.
    pub guests: GuestLineList,
    /// The first Accept of what nobody sealed before.
    pub forged: Option<u64>,
    /// The first Hash whose digest an earlier Hash has for another text, after the first such
    /// earlier one.
    pub collision: Option<(u64, u64)>,
}
