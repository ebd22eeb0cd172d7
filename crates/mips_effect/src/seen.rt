/// Who executes the instruction.
#[derive(Clone, Copy)]
pub enum Mode {
    /// A guest, in its compartment.
    Guest,
    /// The kernel's code, in the null compartment.
    Null,
}

/// What the one who executes sees of a cell.
#[derive(Clone, Copy)]
pub enum Seen {
    /// The value of a cell that it owns.
    Value(u32),
    /// A cell that it doesn't own.
    Foreign,
}
