use xom_base::{OwnFault, Step};

/// What comes to the program from outside for its next step.
#[derive(Clone, Copy)]
pub enum Given {
    Nothing,
    /// The value that an instruction receives.
    Value(u32),
    /// A signal, 1 to 63.
    Signal(u32),
}

/// What the plain machine answers. All but `Did` change nothing.
#[derive(Clone, Copy)]
pub enum PlainStep {
    /// The instruction retired with this step.
    Did(Step),
    /// The program's own fault.
    Fault(OwnFault),
    /// What was given doesn't fit the instruction: a value where none is received, or none where
    /// one is, or a signal to a machine that isn't ready for one.
    Unfit,
    /// The program has ended by `xexit`.
    Over,
}
