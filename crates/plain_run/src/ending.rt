use xom_base::OwnFault;

/// Why a program run alone made no further step.
#[derive(Clone, Copy, Debug, PartialEq, Eq)]
pub enum PlainEnd {
    /// Its last step was that of `xexit`, be the count reached or not.
    Ended,
    /// It made as many steps as were asked for.
    Steps,
    /// Its next instruction has this fault of the program's own.
    Fault(OwnFault),
    /// Its next instruction receives, and no value is left.
    Waiting,
}
