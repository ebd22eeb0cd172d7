use xom_base::List;

/// What a debugger is asked to do.
#[derive(Clone, Copy)]
pub enum Command {
    /// Makes so many events, or those up to the run's end.
    Step(u64),
    /// Makes events until a guest leaves, or up to the run's end.
    UntilTrap,
    /// Prints the cell of this register, 1 to 33: HI is 32 and LO is 33.
    Reg(u8),
    /// Prints where the guest of this slot stands, 1 to 16, and its epoch.
    Slot(u8),
    /// Prints the last 64 events, the oldest first.
    Last,
    /// Prints so many bytes of RAM from an address on, at most 64. A byte outside RAM is 00.
    Ram { address: u32, count: u8 },
}

/// A growing list of commands.
pub type CommandList = List<Command>;
