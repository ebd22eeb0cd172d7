//! The pieces of printed instructions, each added at the end of one growing buffer. Where memory
//! runs out, a part of a piece may stand there already.

ghost use Rattle.std.specs.Prelude.{◌≡◌, ◌++◌, OnOk};
ghost use Rattle.std.specs.Fmt.{signed_decimal};
ghost use Rattle.mips_instruction.specs.Numbers.{signed_16};
ghost use Rattle.mips_text.specs.Texts.{register_text, address_text};

use text_pieces::{push_decimal, push_hex8, push_signed, push_text};
use xom_base::NoMemory;

/// Adds an immediate of 16 bits in decimal, with its sign.
pub fn push_immediate(text: &mut Vec<u8>, imm: u16) -> Result<(), NoMemory>
    ensures { OnOk result (text.new.items ≡ text.old.items ++ signed_decimal (signed_16 imm)) }
{
    push_signed(text, i32::from(imm.cast_signed()))
}

/// Adds a register by its number.
pub fn push_register(text: &mut Vec<u8>, reg: u8) -> Result<(), NoMemory>
    ensures { OnOk result (text.new.items ≡ text.old.items ++ register_text reg) }
{
    push_text(text, "$")?;
    push_decimal(text, u32::from(reg))
}

/// Adds an address: `0x` and 8 hexadecimal digits.
pub fn push_address(text: &mut Vec<u8>, address: u32) -> Result<(), NoMemory>
    ensures { OnOk result (text.new.items ≡ text.old.items ++ address_text address) }
{
    push_text(text, "0x")?;
    push_hex8(text, address)
}
