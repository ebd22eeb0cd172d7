//! The effect of an instruction.
use crate::Wish;
use xom_base::Writes;

/// What an instruction does where it doesn't fault.
#[derive(Clone, Copy)]
pub struct Effect {
    /// The cells written, $0 never among them. A cell that the wish brings isn't told here.
    pub writes: Writes,
    /// What it wants beside that.
    pub wish: Wish,
    /// The address of the next instruction.
    pub pc: u32,
    /// The address of the one after that.
    pub npc: u32,
}
