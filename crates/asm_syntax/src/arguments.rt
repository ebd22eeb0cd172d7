ghost use Rattle.std.specs.Prelude.{◌≡◌, ◌<◌, [], ◌∷◌, IfSome, MatchOption, length, position};
ghost use Rattle.std.specs.List.{slice_split};
ghost use Rattle.asm_syntax.specs.Arguments.{argument_of, arguments_of, based_of, is_comma, offset_of, single_of, value_of_lexeme};
ghost use Rattle.asm_syntax.specs.Forms.{FormAnswers, map_some};

use crate::copies::{copy_bytes, room};
use crate::lexeme::Lexeme;
use asm_source::{Argument, SourceName, Value};
use asm_tokens::Integer;
use std::alloc::Global;
use text_lines::LineFault;
use xom_base::List;

/// The number of an operand that is not there.
pub const ZERO: Integer = Integer {
    negative: false,
    magnitude: 0,
};

/// All operands of a statement: the parts between commas.
#[tactic(auto, unfolding(crate::specs::Arguments::arguments_of))]
pub fn arguments(alloc: Global, lexemes: &[Lexeme]) -> Result<List<Argument>, LineFault>
    ensures { FormAnswers (arguments_of lexemes.now) result }
{
    if lexemes.is_empty() {
        return Ok(List::new(alloc));
    }
    between_commas(alloc, lexemes)
}

/// The operand of each part between commas.
fn between_commas(alloc: Global, lexemes: &[Lexeme]) -> Result<List<Argument>, LineFault>
    ensures { FormAnswers (map_some argument_of (slice_split is_comma lexemes.now)) result }
{
    let mut arguments = room(alloc, 3)?;
    let mut rest = lexemes;
    while let Some((part, more)) = first_part(rest) {
        let argument = argument(alloc, part)?;
        arguments.push(argument)?;
        rest = more;
    }
    let last = argument(alloc, rest)?;
    arguments.push(last)?;
    Ok(arguments)
}

/// What stands before the first comma, and what stands behind it.
#[tactic(auto, using(crate::proofs::CommaLaws::split_at_none))]
fn first_part(lexemes: &[Lexeme]) -> Option<(&[Lexeme], &[Lexeme])>
    ensures parts { let parts = slice_split is_comma in
        MatchOption result (parts lexemes.now ≡ lexemes.now ∷ []) (λ found. parts lexemes.now ≡ found.0.now ∷ parts found.1.now) }
    ensures shorter { IfSome result (λ found. length found.1.now < length lexemes.now) }
{
    let comma = first_comma(lexemes)?;
    Some((&lexemes[..comma], &lexemes[comma + 1..]))
}

/// The place of the first comma.
fn first_comma(lexemes: &[Lexeme]) -> Option<usize>
    ensures { result ≡ position is_comma lexemes.now }
{
    lexemes
        .iter()
        .position(|lexeme| matches!(lexeme, Lexeme::Comma))
}

/// One operand.
#[tactic(auto, unfolding(crate::specs::Arguments::argument_of))]
fn argument(alloc: Global, part: &[Lexeme]) -> Result<Argument, LineFault>
    ensures { FormAnswers (argument_of part.now) result }
{
    match part {
        [one] => single(alloc, one),
        [left, register, right] => {
            let base = based(left, register, right).ok_or(LineFault::Bad)?;
            Ok(Argument::Offset(Value::Number(ZERO), base))
        }
        [offset, left, register, right] => offset_from(alloc, offset, based(left, register, right)),
        _ => Err(LineFault::Bad),
    }
}

/// An operand of one lexeme.
fn single(alloc: Global, lexeme: &Lexeme) -> Result<Argument, LineFault>
    ensures { FormAnswers (single_of lexeme.now) result }
{
    match lexeme {
        Lexeme::Register(register) => Ok(Argument::Register(*register)),
        Lexeme::Number(number) => Ok(Argument::Value(Value::Number(*number))),
        Lexeme::Name(label) => {
            let label = SourceName::from_slice(alloc, label.as_slice())?;
            Ok(Argument::Value(Value::Label(label)))
        }
        Lexeme::Text(text) => {
            let bytes = copy_bytes(alloc, text.as_slice())?;
            Ok(Argument::Text(bytes))
        }
        _ => Err(LineFault::Bad),
    }
}

/// An offset in front of its register.
fn offset_from(alloc: Global, offset: &Lexeme, base: Option<u8>) -> Result<Argument, LineFault>
    ensures { FormAnswers (offset_of offset.now base) result }
{
    let offset = value(alloc, offset)?;
    let base = base.ok_or(LineFault::Bad)?;
    Ok(Argument::Offset(offset, base))
}

/// A number, or the name of a label.
fn value(alloc: Global, lexeme: &Lexeme) -> Result<Value, LineFault>
    ensures { FormAnswers (value_of_lexeme lexeme.now) result }
{
    match lexeme {
        Lexeme::Number(number) => Ok(Value::Number(*number)),
        Lexeme::Name(label) => {
            let label = SourceName::from_slice(alloc, label.as_slice())?;
            Ok(Value::Label(label))
        }
        _ => Err(LineFault::Bad),
    }
}

/// The register of `($r)`.
fn based(left: &Lexeme, register: &Lexeme, right: &Lexeme) -> Option<u8>
    ensures { result ≡ based_of left.now register.now right.now }
{
    match (left, register, right) {
        (Lexeme::Left, Lexeme::Register(register), Lexeme::Right) => Some(*register),
        _ => None,
    }
}
