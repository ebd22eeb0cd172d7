ghost use Rattle.std.specs.Prelude.{◌≡◌, ◌≤◌, ◌<◌, List, IfSome, map, option_map};
ghost use Rattle.std.specs.Int.{w32, from_be_bytes};
ghost use Rattle.text_lines.specs.Hex.{hex_of};
ghost use Rattle.step_text.specs.StepFields.{bytes_at_of, cell_of, cell_or_pair_of, end_of_word, fault_of, hex8_of, named_hex8_of, named_number_of, named_pair_of, number_of_bytes, pair_of, received_word, released_by, released_of, step_of_words, stored_bytes_of, stored_of, text_after_name as behind_of, writes_by, writes_of};

use text_lines::{count_below, cut, hex_array, hex_fills, number32};
use xom_base::{OwnFault, Received, Released, Step, StepEnd, Stored, Writes};

/// What a word of the form that WRITES and RELEASED have in common says.
#[derive(Clone, Copy)]
pub enum CellOrPair {
    /// `-`: nothing.
    Nothing,
    /// The cell of a register, 1 to 33, and its value.
    Cell { reg: u8, value: u32 },
    /// Two values behind a name.
    Pair { first: u32, second: u32 },
}

/// The step of seven words, in the order PC NPC WRITES STORED RECEIVED RELEASED END. None exactly where
/// the words aren't those of a step. It takes no memory.
#[tactic(auto, unfolding(crate::specs::StepFields::step_of_words))]
pub fn step_in(words: &[&[u8]]) -> Option<Step>
    ensures { result ≡ step_of_words (map (λ word. word.now) words.now) }
{
    match words {
        [pc, npc, writes, stored, received, released, end] => Some(Step {
            pc: hex8_in(pc)?,
            npc: hex8_in(npc)?,
            writes: writes_in(writes)?,
            stored: stored_in(stored)?,
            received: received_in(received)?,
            released: released_in(released)?,
            end: end_in(end)?,
        }),
        _ => None,
    }
}

/// A guest's own fault by its name.
#[tactic(auto, unfolding(crate::specs::StepFields::fault_of))]
pub fn fault_in(word: &[u8]) -> Option<OwnFault>
    ensures { result ≡ fault_of word.now }
{
    if word == b"Reserved".as_slice() {
        Some(OwnFault::Reserved)
    } else if word == b"Foreign".as_slice() {
        Some(OwnFault::Foreign)
    } else if word == b"Overflow".as_slice() {
        Some(OwnFault::Overflow)
    } else if word == b"Address".as_slice() {
        Some(OwnFault::Address)
    } else if word == b"Break".as_slice() {
        Some(OwnFault::Break)
    } else {
        None
    }
}

#[tactic(auto, unfolding(crate::specs::StepFields::writes_of))]
fn writes_in(word: &[u8]) -> Option<Writes>
    ensures { result ≡ writes_of word.now }
{
    let read = cell_or_pair_in(b"hl=", word)?;
    Some(writes_by(read))
}

fn writes_by(read: CellOrPair) -> Writes
    ensures { result ≡ writes_by read }
{
    match read {
        CellOrPair::Nothing => Writes::Nothing,
        CellOrPair::Cell { reg, value } => Writes::One { reg, value },
        CellOrPair::Pair { first, second } => Writes::Pair {
            hi: first,
            lo: second,
        },
    }
}

#[tactic(auto, unfolding(crate::specs::StepFields::stored_of))]
fn stored_in(word: &[u8]) -> Option<Stored>
    ensures { result ≡ stored_of word.now }
{
    if word == b"-".as_slice() {
        Some(Stored::Nothing)
    } else {
        stored_bytes_in(word)
    }
}

#[tactic(auto, unfolding(crate::specs::StepFields::stored_bytes_of))]
fn stored_bytes_in(word: &[u8]) -> Option<Stored>
    ensures { result ≡ stored_bytes_of word.now }
{
    let (address, rest) = cut(word, b'+')?;
    let address = hex8_in(address)?;
    bytes_at(address, rest)
}

/// The stored bytes of `COUNT=HEX`, from an address on.
#[tactic(auto, unfolding(crate::specs::StepFields::bytes_at_of))]
fn bytes_at(address: u32, word: &[u8]) -> Option<Stored>
    ensures { result ≡ bytes_at_of address word.now }
{
    let (count, digits) = cut(word, b'=')?;
    let count = count_below(count, 5)?;
    let value = low_in(count, digits)?;
    Some(Stored::Bytes {
        address,
        count,
        value,
    })
}

/// The number of so many bytes, 1 to 4.
fn low_in(count: u8, digits: &[u8]) -> Option<u32>
    requires { count ≤ 4 }
    ensures { result ≡ option_map (number_of_bytes count) (hex_of count digits.now) }
{
    let mut room = [0; 4];
    let front = 4 - usize::from(count);
    if hex_fills(digits, &mut room[front..]) {
        Some(u32::from_be_bytes(room))
    } else {
        None
    }
}

#[tactic(auto, unfolding(crate::specs::StepFields::received_word))]
fn received_in(word: &[u8]) -> Option<Received>
    ensures { result ≡ received_word word.now }
{
    if word == b"-".as_slice() {
        return Some(Received::Nothing);
    }
    if let Some(value) = named_hex8_in(b"cell=", word) {
        return Some(Received::Cell(value));
    }
    if let Some((address, value)) = named_pair_in(b"null=", word) {
        return Some(Received::Null { address, value });
    }
    let n = named_number_in(b"signal=", word)?;
    Some(Received::Signal(n))
}

#[tactic(auto, unfolding(crate::specs::StepFields::released_of))]
fn released_in(word: &[u8]) -> Option<Released>
    ensures { result ≡ released_of word.now }
{
    let read = cell_or_pair_in(b"null=", word)?;
    Some(released_by(read))
}

fn released_by(read: CellOrPair) -> Released
    ensures { result ≡ released_by read }
{
    match read {
        CellOrPair::Nothing => Released::Nothing,
        CellOrPair::Cell { reg, value } => Released::Cell { reg, value },
        CellOrPair::Pair { first, second } => Released::Null {
            address: first,
            value: second,
        },
    }
}

/// `-`, a cell, or two values behind a name.
#[tactic(auto, unfolding(crate::specs::StepFields::cell_or_pair_of))]
fn cell_or_pair_in(name: &[u8], word: &[u8]) -> Option<CellOrPair>
    ensures { result ≡ cell_or_pair_of name.now word.now }
{
    if word == b"-".as_slice() {
        return Some(CellOrPair::Nothing);
    }
    if let Some((reg, value)) = cell_in(word) {
        return Some(CellOrPair::Cell { reg, value });
    }
    let (first, second) = named_pair_in(name, word)?;
    Some(CellOrPair::Pair { first, second })
}

#[tactic(auto, unfolding(crate::specs::StepFields::end_of_word))]
fn end_in(word: &[u8]) -> Option<StepEnd>
    ensures { result ≡ end_of_word word.now }
{
    if word == b"goes".as_slice() {
        return Some(StepEnd::Goes);
    }
    if word == b"exit".as_slice() {
        return Some(StepEnd::Exit);
    }
    let code = named_number_in(b"call=", word)?;
    Some(StepEnd::Call(code))
}

/// A cell and its value, of `rN=HEX8`.
#[tactic(auto, unfolding(crate::specs::StepFields::cell_of))]
fn cell_in(word: &[u8]) -> Option<(u8, u32)>
    ensures { result ≡ cell_of word.now }
{
    let rest = behind(b"r", word)?;
    let (reg, value) = cut(rest, b'=')?;
    let reg = count_below(reg, 34)?;
    let value = hex8_in(value)?;
    Some((reg, value))
}

/// Two values behind a name, of `HEX8:HEX8`.
#[tactic(auto, unfolding(crate::specs::StepFields::named_pair_of))]
fn named_pair_in(name: &[u8], word: &[u8]) -> Option<(u32, u32)>
    ensures { result ≡ named_pair_of name.now word.now }
{
    let rest = behind(name, word)?;
    pair_in(rest)
}

#[tactic(auto, unfolding(crate::specs::StepFields::pair_of))]
fn pair_in(word: &[u8]) -> Option<(u32, u32)>
    ensures { result ≡ pair_of word.now }
{
    let (first, second) = cut(word, b':')?;
    let first = hex8_in(first)?;
    let second = hex8_in(second)?;
    Some((first, second))
}

#[tactic(auto, unfolding(crate::specs::StepFields::named_hex8_of))]
fn named_hex8_in(name: &[u8], word: &[u8]) -> Option<u32>
    ensures { result ≡ named_hex8_of name.now word.now }
{
    let rest = behind(name, word)?;
    hex8_in(rest)
}

#[tactic(auto, unfolding(crate::specs::StepFields::named_number_of))]
fn named_number_in(name: &[u8], word: &[u8]) -> Option<u32>
    ensures { result ≡ named_number_of name.now word.now }
{
    let rest = behind(name, word)?;
    number32(rest)
}

#[tactic(auto, unfolding(crate::specs::StepFields::text_after_name))]
fn behind<'a>(name: &[u8], word: &'a [u8]) -> Option<&'a [u8]>
    ensures { option_map (λ rest. rest.now) result ≡ behind_of name.now word.now }
{
    word.strip_prefix(name)
}

/// The number of eight hexadecimal digits.
#[tactic(auto, unfolding(crate::specs::StepFields::hex8_of))]
pub fn hex8_in(word: &[u8]) -> Option<u32>
    ensures { result ≡ hex8_of word.now }
{
    let bytes = hex_array(word)?;
    Some(u32::from_be_bytes(bytes))
}
