use crate::{Argument, SourceName, Value};
use asm_tokens::Integer;
use xom_base::{ByteList, List};

/// A label or a statement.
#[derive(Drop)]
pub enum Content {
    /// `name:`, which names the next place.
    Label(SourceName),
    /// `.word`: the values, four bytes each.
    Words(List<Value>),
    /// `.byte`: the numbers, one byte each.
    Bytes(List<Integer>),
    /// `.ascii`: these bytes.
    Ascii(ByteList),
    /// `.space`: so many zero bytes.
    Space(u64),
    /// `.align`: zeros up to a multiple of this power of 2.
    Align(u64),
    /// `.org`: the next place is this.
    Org(u64),
    /// `.entry`: the entry of the image is this.
    Entry(Value),
    /// `li`: a register gets a number.
    LoadNumber(u8, Integer),
    /// `la`: a register gets the place of a label.
    LoadAddress(u8, SourceName),
    /// An instruction: its mnemonic, and all its operands in the order of its text.
    Instruction(SourceName, List<Argument>),
}

/// A label or a statement, with the number of its line, counted from 1.
#[derive(Drop)]
pub struct Part {
    pub line: u64,
    pub content: Content,
}
