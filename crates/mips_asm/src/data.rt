ghost use Rattle.std.specs.Prelude.{◌≡◌, ◌<◌, ◌≤◌, ◌+◌, ◌%◌, [], IfOk, option_map};
ghost use Rattle.asm_syntax.specs.Forms.{map_some};
ghost use Rattle.mips_asm.specs.LabelMaps.{place_in};
ghost use Rattle.mips_asm.specs.Layout.{limit, padding, statement_size};
ghost use Rattle.mips_asm.specs.Encoding.{ComesOf, GivesWords, IsCode, IsPadding, StatementGives, TellsWhether, byte_value, join_some, one_instruction, word_bytes, word_value};

use crate::fields::{number_of, wrapped};
use crate::instructions::{instruction_at, load_address, load_number, words};
use crate::labels::Labels;
use crate::layout::{in_range, padding};
use asm_source::{Content, Value};
use asm_tokens::Integer;
use mips_forms::Operand;
use mips_instruction::Ins;
use std::alloc::Global;
use xom_base::{List, NoMemory};

/// Writes the bytes of a statement at a place, or answers false where a value of it is out of its
/// range. Nothing is written before. The operands are room that is used again for each instruction.
pub fn add_bytes(
    alloc: Global,
    labels: &Labels,
    place: u64,
    content: &Content,
    operands: &mut Vec<Operand>,
    bytes: &mut Vec<u8>,
) -> Result<bool, NoMemory>
    requires inside { 0 < statement_size place content.now → place + statement_size place content.now ≤ limit }
    requires clear { bytes.old.items ≡ [] }
    ensures { IfOk result (λ written. TellsWhether (StatementGives (place_in labels.now) place content.now) written bytes.new.items) }
{
    match content {
        Content::Label(_) | Content::Org(_) | Content::Entry(_) => Ok(true),
        Content::Words(values) => add_words(labels, place, values.as_slice(), bytes),
        Content::Bytes(numbers) => joined_bytes(numbers.as_slice(), bytes),
        Content::Ascii(text) => {
            bytes.extend_from_slice(text.as_slice())?;
            Ok(true)
        }
        Content::Space(count) => {
            bytes.resize(*count as usize, 0)?;
            Ok(true)
        }
        Content::Align(power) => align(*power, place, bytes),
        Content::LoadNumber(register, number) => {
            let instructions = load_number(alloc, *register, *number)?;
            add_code(place, instructions, bytes)
        }
        Content::LoadAddress(register, name) => {
            let instructions = load_address(alloc, labels, *register, name.as_slice())?;
            add_code(place, instructions, bytes)
        }
        Content::Instruction(name, arguments) => {
            let (name, arguments) = (name.as_slice(), arguments.as_slice());
            let made = instruction_at(labels, place as u32, name, arguments, operands)?;
            add_instruction(place, made, bytes)
        }
    }
}

/// The bytes of the values of `.word`, at a multiple of 4.
fn add_words(
    labels: &Labels,
    place: u64,
    values: &[Value],
    bytes: &mut Vec<u8>,
) -> Result<bool, NoMemory>
    requires { bytes.old.items ≡ [] }
    ensures { IfOk result (λ written. TellsWhether (GivesWords (place_in labels.now) place values.now) written bytes.new.items) }
{
    if place % 4 != 0 {
        return Ok(false);
    }
    joined_words(labels, values, bytes)
}

#[tactic(auto, using(crate::proofs::JoinLaws::join_some_more, crate::proofs::JoinLaws::join_some_stops))]
fn joined_words(labels: &Labels, values: &[Value], bytes: &mut Vec<u8>) -> Result<bool, NoMemory>
    requires { bytes.old.items ≡ [] }
    ensures { IfOk result (λ written. ComesOf (join_some (word_value (place_in labels.now)) values.now) written bytes.new.items) }
{
    for value in values {
        let Some(word) = word_value(labels, value) else {
            return Ok(false);
        };
        bytes.extend_from_slice(&word)?;
    }
    Ok(true)
}

/// The four bytes of a value from -2^31 to 2^32 - 1.
#[tactic(auto, unfolding(crate::specs::Encoding::word_value))]
fn word_value(labels: &Labels, value: &Value) -> Option<[u8; 4]>
    ensures { result ≡ word_value (place_in labels.now) value.now }
{
    word_bytes(number_of(labels, value)?)
}

fn word_bytes(number: Integer) -> Option<[u8; 4]>
    ensures { result ≡ word_bytes number }
{
    if !in_range(0x8000_0000, 0xffff_ffff, number) {
        return None;
    }
    Some((wrapped(32, number) as u32).to_be_bytes())
}

/// The bytes of the numbers of `.byte`.
#[tactic(auto, using(asm_syntax::proofs::FormLaws::map_some_more, asm_syntax::proofs::FormLaws::map_some_stops))]
fn joined_bytes(numbers: &[Integer], bytes: &mut Vec<u8>) -> Result<bool, NoMemory>
    requires { bytes.old.items ≡ [] }
    ensures { IfOk result (λ written. ComesOf (map_some byte_value numbers.now) written bytes.new.items) }
{
    for number in numbers {
        let Some(byte) = byte_value(*number) else {
            return Ok(false);
        };
        bytes.push(byte)?;
    }
    Ok(true)
}

/// The byte of a number from -128 to 255.
fn byte_value(number: Integer) -> Option<u8>
    ensures { result ≡ byte_value number }
{
    if !in_range(128, 255, number) {
        return None;
    }
    Some(wrapped(8, number) as u8)
}

/// Zeros up to a multiple of 2^power, which is at most 12.
fn align(power: u64, place: u64, bytes: &mut Vec<u8>) -> Result<bool, NoMemory>
    requires { bytes.old.items ≡ [] }
    ensures { IfOk result (λ written. TellsWhether (IsPadding power place) written bytes.new.items) }
{
    if power > 12 {
        return Ok(false);
    }
    bytes.resize(padding(power, place) as usize, 0)?;
    Ok(true)
}

/// The bytes of instructions, if there are any, at a multiple of 4.
fn add_code(
    place: u64,
    instructions: Option<List<Ins>>,
    bytes: &mut Vec<u8>,
) -> Result<bool, NoMemory>
    requires { bytes.old.items ≡ [] }
    ensures { IfOk result (λ written. TellsWhether (IsCode place instructions) written bytes.new.items) }
{
    if place % 4 != 0 {
        return Ok(false);
    }
    match instructions {
        None => Ok(false),
        Some(instructions) => words(instructions.as_slice(), bytes),
    }
}

/// The bytes of an instruction, if there is one, at a multiple of 4.
fn add_instruction(
    place: u64,
    instruction: Option<Ins>,
    bytes: &mut Vec<u8>,
) -> Result<bool, NoMemory>
    requires { bytes.old.items ≡ [] }
    ensures { IfOk result (λ written. TellsWhether (IsCode place (option_map one_instruction instruction)) written bytes.new.items) }
{
    if place % 4 != 0 {
        return Ok(false);
    }
    match instruction {
        None => Ok(false),
        Some(ins) => words(&[ins], bytes),
    }
}
