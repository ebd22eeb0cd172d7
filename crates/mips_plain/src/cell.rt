/// A register of the plain machine.
#[derive(Clone, Copy, Debug, PartialEq, Eq)]
pub enum PlainCell {
    /// The program owns it, with this value.
    Own(u32),
    /// It belongs to the outside.
    Lent,
}
