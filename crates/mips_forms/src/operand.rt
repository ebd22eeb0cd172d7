/// An operand of an instruction, as it stands in the instruction's text.
#[derive(Clone, Copy)]
pub enum Operand {
    /// A register by its number, 0 to 31: `$8`.
    Register(u8),
    /// A shift amount, 0 to 31.
    Shift(u8),
    /// An immediate of 16 bits that is extended by its sign: the text is from -32768 to 32767.
    Signed(u16),
    /// An immediate of 16 bits that is extended by zeros.
    Unsigned(u16),
    /// The code of a `syscall` or a `break`, of 20 bits.
    Code(u32),
    /// A branch, as it stands in the word: words from the following instruction, with a sign. The
    /// text has the address.
    Branch(u16),
    /// A jump, as it stands in the word: 26 bits of the address of a word. The text has the whole
    /// address.
    Jump(u32),
    /// An offset of 16 bits, with a sign, from the address in a base register: `-4($29)`.
    Offset { imm: u16, base: u8 },
}

/// What sort of operand an instruction takes in a place of its text.
#[derive(Clone, Copy)]
pub enum OperandKind {
    /// `Operand::Register`.
    Register,
    /// `Operand::Shift`.
    Shift,
    /// `Operand::Signed`.
    Signed,
    /// `Operand::Unsigned`.
    Unsigned,
    /// `Operand::Code`.
    Code,
    /// `Operand::Branch`.
    Branch,
    /// `Operand::Jump`.
    Jump,
    /// `Operand::Offset`.
    Offset,
}

/// The operands of an instruction, in the order of its text. No instruction has more than three.
#[derive(Clone, Copy)]
pub enum Operands {
    /// No operand.
    Empty,
    /// One operand.
    One(Operand),
    /// Two operands.
    Two(Operand, Operand),
    /// Three operands.
    Three(Operand, Operand, Operand),
}
