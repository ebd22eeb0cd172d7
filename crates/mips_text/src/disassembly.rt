ghost use Rattle.std.specs.Prelude.{◌≡◌, ◌++◌, ◌+◌, ◌<◌, ◌≤◌, ◌^◌, IfOk, OnOk, slice_index};
ghost use Rattle.mips_text.specs.Texts.{image_word_at as word_at_of, listing_line, listing_of, word_text};

use crate::pieces::push_address;
use crate::printing::push_instruction;
use mips_isa::decode;
use std::alloc::Global;
use text_pieces::{push_hex8, push_text};
use xom_base::{ByteList, NoMemory, PlainImage};

/// The words of an image, a line each: the address, the word, and the instruction, or `.word` where
/// no instruction has that word. What the last word lacks counts as zeros. Linear in the image.
#[tactic(auto, unfolding(crate::specs::Texts::listing_of))]
pub fn listing(alloc: Global, image: &PlainImage) -> Result<ByteList, NoMemory>
    ensures { IfOk result (λ text. text ≡ listing_of image.now.bytes) }
{
    let mut text = Vec::new(alloc);
    let bytes = image.bytes.as_slice();
    let count = (bytes.len() + 3) / 4;
    for n in 0..count {
        let address = 4 * n;
        push_line(&mut text, address as u32, word_at(bytes, address))?;
    }
    Ok(ByteList::from_vec(text))
}

/// Adds the line of a word.
#[tactic(auto, unfolding(crate::specs::Texts::listing_line))]
fn push_line(text: &mut Vec<u8>, address: u32, word: u32) -> Result<(), NoMemory>
    ensures { OnOk result (text.new.items ≡ text.old.items ++ listing_line address word) }
{
    push_hex8(text, address)?;
    push_text(text, " ")?;
    push_hex8(text, word)?;
    push_text(text, " ")?;
    push_word(text, word, address)?;
    push_text(text, "\n")
}

/// Adds the instruction of a word at an address, or the word itself where it is reserved.
fn push_word(text: &mut Vec<u8>, word: u32, pc: u32) -> Result<(), NoMemory>
    ensures { OnOk result (text.new.items ≡ text.old.items ++ word_text word pc) }
{
    match decode(word) {
        Some(ins) => push_instruction(text, ins, pc),
        None => {
            push_text(text, ".word ")?;
            push_address(text, word)
        }
    }
}

/// The word at an address; bytes behind the last count as zero.
fn word_at(bytes: &[u8], address: usize) -> u32
    requires { address < 2 ^ 32 }
    ensures { result ≡ word_at_of bytes.now address }
{
    u32::from_be_bytes([
        byte_at(bytes, address),
        byte_at(bytes, address + 1),
        byte_at(bytes, address + 2),
        byte_at(bytes, address + 3),
    ])
}

/// The byte at an address, or zero behind the last.
fn byte_at(bytes: &[u8], address: usize) -> u8
    ensures { result ≡ slice_index bytes.now address }
{
    bytes.get(address).copied().unwrap_or(0)
}
