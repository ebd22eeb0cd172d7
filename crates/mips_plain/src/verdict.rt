/// What may be said of a guest's recorded steps beside its run alone.
#[derive(Clone, Copy, Debug, PartialEq, Eq)]
pub enum Verdict {
    /// All of its steps, so many, are those of the plain machine.
    Follows(u64),
    /// This step, counted from 1, is the first that isn't.
    Departs(u64),
    /// No owner has its id.
    NoOwner,
}
