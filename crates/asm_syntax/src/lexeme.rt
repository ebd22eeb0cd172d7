ghost use Rattle.std.specs.Prelude.{◌≡◌, ◌<◌, ◌≤◌, [], ◌∷◌, Some, IfOk, IfSome, MatchOption, MatchResult, length};
ghost use Rattle.asm_syntax.specs.Forms.{Fills, FormAnswers, FormRefuses, in_front};
ghost use Rattle.asm_syntax.specs.Lexing.{lexeme_of, lexemes_from, lexemes_of};

use crate::copies::add;
use asm_source::SourceName;
use asm_tokens::{Integer, TokenKind, integer, next_token, register, unquoted};
use std::alloc::Global;
use text_lines::LineFault;
use xom_base::ByteList;

/// A token of a line with what it stands for.
#[derive(Drop)]
pub enum Lexeme {
    /// A name.
    Name(SourceName),
    /// A whole number.
    Number(Integer),
    /// A register, 0 to 31.
    Register(u8),
    /// A quoted text: the bytes that it stands for.
    Text(ByteList),
    /// `,`
    Comma,
    /// `:`
    Colon,
    /// `(`
    Left,
    /// `)`
    Right,
}

/// Reads the lexemes of a line into a list, in place of those that it has. Bad is for a byte that begins
/// no token. It costs time linear in the line.
pub fn read_lexemes(alloc: Global, line: &[u8], lexemes: &mut Vec<Lexeme>) -> Result<(), LineFault>
    ensures { Fills (lexemes_of line.now) result lexemes.new.items }
{
    lexemes.clear();
    let mut at = 0;
    while let Some((lexeme, end)) = next_lexeme(alloc, line, at)? {
        add(lexemes, lexeme)?;
        at = end;
    }
    Ok(())
}

/// The first lexeme from a place on with the place behind it, or none where the line is over. Bad is for
/// a byte that begins no token.
#[tactic(auto, using(crate::proofs::LexemeLaws::lexemes_from_over, crate::proofs::LexemeLaws::lexemes_from_bad, crate::proofs::LexemeLaws::lexemes_from_none, crate::proofs::LexemeLaws::lexemes_from_one))]
fn next_lexeme(alloc: Global, line: &[u8], at: usize) -> Result<Option<(Lexeme, usize)>, LineFault>
    requires { at ≤ length line.now }
    ensures value { let all = lexemes_from line.now at in
        MatchResult result (λ next. MatchOption next (all ≡ Some []) (λ found. all ≡ in_front (found.0 ∷ []) (lexemes_from line.now found.1))) (λ fault. FormRefuses all fault) }
    ensures onward { IfOk result (λ next. IfSome next (λ found. (at < found.1) × (found.1 ≤ length line.now))) }
{
    let Some(token) = next_token(line, at).map_err(|_| LineFault::Bad)? else {
        return Ok(None);
    };
    let text = &line[token.start as usize..token.end as usize];
    let lexeme = make_lexeme(alloc, token.kind, text)?;
    Ok(Some((lexeme, token.end as usize)))
}

/// The lexeme of a token of this kind with this text.
fn make_lexeme(alloc: Global, kind: TokenKind, text: &[u8]) -> Result<Lexeme, LineFault>
    ensures { FormAnswers (lexeme_of kind text.now) result }
{
    match kind {
        TokenKind::Name => Ok(Lexeme::Name(SourceName::from_slice(alloc, text)?)),
        TokenKind::Number => Ok(Lexeme::Number(integer(text).ok_or(LineFault::Bad)?)),
        TokenKind::Register => Ok(Lexeme::Register(register(text).ok_or(LineFault::Bad)?)),
        TokenKind::Text => Ok(Lexeme::Text(unquoted(alloc, text)?.ok_or(LineFault::Bad)?)),
        TokenKind::Comma => Ok(Lexeme::Comma),
        TokenKind::Colon => Ok(Lexeme::Colon),
        TokenKind::Left => Ok(Lexeme::Left),
        TokenKind::Right => Ok(Lexeme::Right),
    }
}
