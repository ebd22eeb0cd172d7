//! The pieces that printed texts are made of, each added at the end of one growing list of bytes:
//! texts and bytes as they are, bytes as two hexadecimal digits each, numbers in decimal, with a sign
//! where they have one, and numbers of 32 bits as eight hexadecimal digits.
//!
//! So a text of a million lines is one list, and no piece has a list of its own. Where memory runs
//! out, what stood there before still stands in front, and a part of the piece may follow.
#![tactic(auto)]

ghost use Rattle.std.specs.Prelude.{◌≡◌, ◌++◌, ◌∷◌, [], OnErr, OnOk};
ghost use Rattle.std.specs.Fmt.{decimal, signed_decimal};
ghost use Rattle.hex.specs.Hex.{encode_lower};
ghost use Rattle.text_pieces.specs.Pieces.{Begins, hex8 as hex8_of};

use itoa::Buffer;
use xom_base::NoMemory;

/// Adds these bytes.
pub fn push_bytes(text: &mut Vec<u8>, bytes: &[u8]) -> Result<(), NoMemory>
    ensures ok { OnOk result (text.new.items ≡ text.old.items ++ bytes.now) }
    ensures err { OnErr result (Begins text.old.items text.new.items) }
{
    Ok(text.extend_from_slice(bytes)?)
}

/// Adds a text as it is.
pub fn push_text(text: &mut Vec<u8>, added: &str) -> Result<(), NoMemory>
    ensures ok { OnOk result (text.new.items ≡ text.old.items ++ added.now) }
    ensures err { OnErr result (Begins text.old.items text.new.items) }
{
    push_bytes(text, added.as_bytes())
}

/// Adds a number in decimal, without leading zeros.
pub fn push_decimal(text: &mut Vec<u8>, n: u32) -> Result<(), NoMemory>
    ensures ok { OnOk result (text.new.items ≡ text.old.items ++ decimal n) }
    ensures err { OnErr result (Begins text.old.items text.new.items) }
{
    push_decimal64(text, u64::from(n))
}

/// Adds a number below 2^64 in decimal, without leading zeros.
pub fn push_decimal64(text: &mut Vec<u8>, n: u64) -> Result<(), NoMemory>
    ensures ok { OnOk result (text.new.items ≡ text.old.items ++ decimal n) }
    ensures err { OnErr result (Begins text.old.items text.new.items) }
{
    let mut digits = Buffer::new();
    push_bytes(text, digits.format(n).as_bytes())
}

/// Adds a number of 32 bits with a sign in decimal: `-` in front where it is below zero, and no
/// leading zeros.
pub fn push_signed(text: &mut Vec<u8>, n: i32) -> Result<(), NoMemory>
    ensures ok { OnOk result (text.new.items ≡ text.old.items ++ signed_decimal n) }
    ensures err { OnErr result (Begins text.old.items text.new.items) }
{
    let mut numeral = Buffer::new();
    push_bytes(text, numeral.format(n).as_bytes())
}

/// Adds bytes as two hexadecimal digits each, in lower case. No list is made for them.
pub fn push_hex(text: &mut Vec<u8>, bytes: &[u8]) -> Result<(), NoMemory>
    ensures ok { OnOk result (text.new.items ≡ text.old.items ++ encode_lower bytes.now) }
    ensures err { OnErr result (Begins text.old.items text.new.items) }
{
    for byte in bytes {
        push_bytes(text, hex2(*byte).as_slice())?;
    }
    Ok(())
}

/// Adds a number as eight hexadecimal digits in lower case, the highest first.
pub fn push_hex8(text: &mut Vec<u8>, n: u32) -> Result<(), NoMemory>
    ensures ok { OnOk result (text.new.items ≡ text.old.items ++ hex8_of n) }
    ensures err { OnErr result (Begins text.old.items text.new.items) }
{
    push_bytes(text, hex8(n).as_slice())
}

/// The eight hexadecimal digits of a number, in lower case, the highest first.
pub fn hex8(n: u32) -> [u8; 8]
    ensures { result ≡ hex8_of n }
{
    let mut digits = [0; 8];
    match hex::encode_to_slice(n.to_be_bytes(), &mut digits) {
        Ok(()) => digits,
        Err(_) => unreachable!(),
    }
}

/// The two hexadecimal digits of a byte, in lower case.
fn hex2(byte: u8) -> [u8; 2]
    ensures { result ≡ encode_lower (byte ∷ []) }
{
    let mut digits = [0; 2];
    match hex::encode_to_slice([byte], &mut digits) {
        Ok(()) => digits,
        Err(_) => unreachable!(),
    }
}
