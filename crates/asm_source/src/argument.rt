use crate::SourceName;
use asm_tokens::Integer;
use xom_base::ByteList;

/// A value in a source.
#[derive(Drop)]
pub enum Value {
    /// A number.
    Number(Integer),
    /// The place of the label of this name.
    Label(SourceName),
}

/// One operand as a source writes it.
#[derive(Drop)]
pub enum Argument {
    /// A register, 0 to 31.
    Register(u8),
    /// A number or a label.
    Value(Value),
    /// An offset and, in parentheses, a register. A missing offset is 0.
    Offset(Value, u8),
    /// A quoted text: the bytes that it stands for.
    Text(ByteList),
}
