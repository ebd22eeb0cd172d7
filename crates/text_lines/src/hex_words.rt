ghost use Rattle.std.specs.Prelude.{◌≡◌, ◌≢◌, ◌↔◌, ◌≤◌, ◌/◌, ℕ, List, IfOk, IfSome, IsNone, MatchOption, Some, true, false, drop, length, option_map, take};
ghost use Rattle.hex.specs.declared.error.FromHexError.TheVariants as hex_fault;
ghost use Rattle.text_lines.specs.Hex.{IsHex, WritesHex, hex_of, hex_within};

use hex::{FromHex, FromHexError};
use std::alloc::Global;
use xom_base::{ByteList, NoMemory};

/// The bytes of a word of two hexadecimal digits for each of `N`, in either case. None exactly where the
/// word is none.
pub fn hex_array<const N: usize>(word: &[u8]) -> Option<[u8; N]>
    ensures exact { (bytes : List ℕ) → (result ≡ Some bytes) ↔ IsHex N word.now bytes }
    ensures none { IsNone result ↔ ((bytes : List ℕ) → ¬ IsHex N word.now bytes) }
    ensures value { result ≡ hex_of N word.now }
{
    <[u8; N] as FromHex>::from_hex(word).ok()
}

/// The 32 bytes of a word of 64 hexadecimal digits in either case. None exactly where the word is none.
pub fn hex32(word: &[u8]) -> Option<[u8; 32]>
    ensures exact { (bytes : List ℕ) → (result ≡ Some bytes) ↔ IsHex 32 word.now bytes }
    ensures none { IsNone result ↔ ((bytes : List ℕ) → ¬ IsHex 32 word.now bytes) }
    ensures value { result ≡ hex_of 32 word.now }
{
    hex_array(word)
}

/// The 16 bytes of a word of 32 hexadecimal digits in either case. None exactly where the word is none.
pub fn hex16(word: &[u8]) -> Option<[u8; 16]>
    ensures exact { (bytes : List ℕ) → (result ≡ Some bytes) ↔ IsHex 16 word.now bytes }
    ensures none { IsNone result ↔ ((bytes : List ℕ) → ¬ IsHex 16 word.now bytes) }
    ensures value { result ≡ hex_of 16 word.now }
{
    hex_array(word)
}

/// Reads a word of two hexadecimal digits a byte, in either case, into the front of a room: gives how
/// many bytes there are. None exactly where the word is none, or has more bytes than the room; the
/// room's bytes may have changed then. It takes no memory.
pub fn hex_into(word: &[u8], room: &mut [u8]) -> Option<usize>
    ensures exact { (bytes : List ℕ) → (option_map (λ count. take count room.new) result ≡ Some bytes) ↔ WritesHex (length room.old) word.now bytes }
    ensures none { IsNone result ↔ ((bytes : List ℕ) → ¬ WritesHex (length room.old) word.now bytes) }
    ensures fits { IfSome result (λ count. count ≤ length room.old) }
    ensures rest { IfSome result (λ count. drop count room.new ≡ drop count room.old) }
    ensures value { option_map (λ count. take count room.new) result ≡ hex_within (length room.old) word.now }
{
    into_room(word, room)
}

#[tactic(auto, unfolding(crate::specs::Hex::hex_within))]
fn into_room(word: &[u8], room: &mut [u8]) -> Option<usize>
    ensures fits { IfSome result (λ count. count ≤ length room.old) }
    ensures rest { IfSome result (λ count. drop count room.new ≡ drop count room.old) }
    ensures value { option_map (λ count. take count room.new) result ≡ hex_within (length room.old) word.now }
{
    let count = word.len() / 2;
    if count > room.len() {
        return None;
    }
    if hex_fills(word, &mut room[..count]) {
        Some(count)
    } else {
        None
    }
}

/// Fills a room with the bytes of a word that has as many: whether it has. Where it hasn't, the room's
/// bytes may have changed. It takes no memory.
pub fn hex_fills(word: &[u8], room: &mut [u8]) -> bool
    ensures { MatchOption (hex_of (length room.old) word.now) (result ≡ false) (λ bytes. (result ≡ true) × (room.new ≡ bytes)) }
{
    hex::decode_to_slice(word, room).is_ok()
}

/// The bytes of a word of two hexadecimal digits a byte, in either case, at most `most`. None exactly
/// where the word is none, or has more bytes. It takes memory for its bytes alone.
pub fn hex_list(alloc: Global, word: &[u8], most: usize) -> Result<Option<ByteList>, NoMemory>
    ensures exact { IfOk result (λ found. (bytes : List ℕ) → (found ≡ Some bytes) ↔ WritesHex most word.now bytes) }
    ensures none { IfOk result (λ found. IsNone found ↔ ((bytes : List ℕ) → ¬ WritesHex most word.now bytes)) }
    ensures value { IfOk result (λ found. found ≡ hex_within most word.now) }
{
    list_within(alloc, word, most)
}

#[tactic(auto, unfolding(crate::specs::Hex::hex_within))]
fn list_within(alloc: Global, word: &[u8], most: usize) -> Result<Option<ByteList>, NoMemory>
    ensures { IfOk result (λ found. found ≡ hex_within most word.now) }
{
    if word.len() / 2 > most {
        return Ok(None);
    }
    hex_bytes(alloc, word)
}

/// The bytes of a word of any even number of digits.
fn hex_bytes(alloc: Global, word: &[u8]) -> Result<Option<ByteList>, NoMemory>
    ensures { IfOk result (λ found. found ≡ hex_of (length word.now / 2) word.now) }
{
    match hex::decode(alloc, word) {
        Ok(bytes) => Ok(Some(ByteList::from_vec(bytes))),
        Err(fault) => {
            word_fault(fault)?;
            Ok(None)
        }
    }
}

/// Whether the word is at fault: want of memory is the other answer.
fn word_fault(fault: FromHexError) -> Result<(), NoMemory>
    ensures { IfOk result (λ _. fault ≢ hex_fault.OutOfMemory) }
{
    match fault {
        FromHexError::OutOfMemory => Err(NoMemory),
        FromHexError::InvalidHexCharacter { .. }
        | FromHexError::OddLength
        | FromHexError::InvalidStringLength => Ok(()),
    }
}
