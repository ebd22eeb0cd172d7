/// A register with the compartment that it belongs to.
#[derive(Clone, Copy)]
pub struct Cell {
    /// What it holds.
    pub value: u32,
    /// 0 is the null compartment, 1 to 16 is a slot.
    pub tag: u8,
}

impl Cell {
    /// Zero, of the null compartment.
    pub const EMPTY: Cell = Cell { value: 0, tag: 0 };
}
