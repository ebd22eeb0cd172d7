ghost use Rattle.std.specs.Prelude.{◌≡◌, ◌+◌, ◌<◌, ◌≤◌, ℕ, List, [], ◌∷◌, Ok, Err, IfOk, IfSome, All, MatchOption, MatchResult, drop, length};
ghost use Rattle.std.specs.List.{prefix_len};
ghost use Rattle.xom_base.specs.Memory.{OrOut};
ghost use Rattle.text_lines.specs.Words.{is_blank};
ghost use Rattle.asm_tokens.specs.declared.token.Token.{Token};
ghost use Rattle.asm_tokens.specs.Lexemes.{is_name_byte};
ghost use Rattle.asm_tokens.specs.Tokens.{AreTokens, IsBadAt, IsTokenOf, TokensAnswers, kind_of_token, name_run_size, nothing_follows, size_of_token, token_of, tokens_from, tokens_of, with_tokens};

use crate::quoted::behind_quote;
use crate::{Token, TokenFault, TokenKind, TokenList, integer, register};
use std::alloc::Global;
use xom_base::NoMemory;

/// The tokens of a line, which is given without its line end. Space, tab and byte 13 stand between
/// tokens, but none needs to; outside quoted texts `#` begins a comment. A name, a number or a register
/// takes all letters, digits, `_` and `.` that follow. The fault is the first byte that begins no
/// token. It costs time linear in the line, and memory for the list alone.
pub fn tokens(alloc: Global, line: &[u8]) -> Result<TokenList, TokenFault>
    ensures found { IfOk result (AreTokens line.now) }
    ensures only { (tokens : List Token) → AreTokens line.now tokens → OrOut TokenFault.NoMemory (Ok tokens) result }
    ensures bad { (at : ℕ) → result ≡ Err (TokenFault.Token at) → IsBadAt line.now at }
    ensures only_bad { (at : ℕ) → IsBadAt line.now at → OrOut TokenFault.NoMemory (Err (TokenFault.Token at)) result }
    // Each token's text is its slice of the line.
    ensures slices { IfOk result (λ tokens. All (IsTokenOf line.now) tokens) }
    ensures value { TokensAnswers (tokens_of line.now) result }
{
    tokens_in(alloc, line)
}

fn tokens_in(alloc: Global, line: &[u8]) -> Result<TokenList, TokenFault>
    ensures { TokensAnswers (tokens_of line.now) result }
{
    let mut tokens = room(alloc)?;
    let mut at = 0;
    while let Some(token) = next_token(line, at).map_err(TokenFault::Token)? {
        tokens.push(token)?;
        at = token.end as usize;
    }
    Ok(tokens)
}

/// The empty list, with room for the tokens of most lines.
fn room(alloc: Global) -> Result<TokenList, NoMemory>
    ensures { IfOk result (λ list. list ≡ []) }
{
    Ok(TokenList::from_vec(Vec::with_capacity(alloc, 8)?))
}

/// The first token from a place on, or none where the line is over. The error is the place of the
/// first byte that begins no token. It costs time linear in the bytes up to the token's end.
pub fn next_token(line: &[u8], at: usize) -> Result<Option<Token>, u64>
    requires { at ≤ length line.now }
    ensures value { let all = tokens_from at 0 (drop at line.now) in
        MatchResult result (λ next. MatchOption next (all ≡ Ok []) (λ token. all ≡ with_tokens (token ∷ []) (tokens_from token.end 0 (drop token.end line.now)))) (λ bad. all ≡ Err bad) }
    ensures onward { IfOk result (λ next. IfSome next (λ token. (at ≤ token.start) × (token.start < token.end) × (token.end ≤ length line.now))) }
{
    let start = at + blanks(&line[at..]);
    let bytes = &line[start..];
    if is_over(bytes) {
        return Ok(None);
    }
    match token_of(bytes) {
        None => Err(start as u64),
        Some((kind, size)) => Ok(Some(Token {
            kind,
            start: start as u64,
            end: (start + size) as u64,
        })),
    }
}

/// Whether nothing stands there any more, or a comment.
fn is_over(bytes: &[u8]) -> bool
    ensures { result ≡ nothing_follows bytes.now }
{
    matches!(bytes, [] | [b'#', ..])
}

/// The kind and the size of the token that begins with the first of these bytes.
#[tactic(auto, unfolding(crate::specs::Tokens::token_of))]
fn token_of(bytes: &[u8]) -> Option<(TokenKind, usize)>
    ensures value { result ≡ token_of bytes.now }
    ensures within { IfSome result (λ found. (0 < found.1) × (found.1 ≤ length bytes.now)) }
{
    let kind = kind_of(*bytes.first()?)?;
    let size = size_of(kind, bytes)?;
    Some((kind, size))
}

/// The kind of token that a byte begins.
#[tactic(auto, unfolding(crate::specs::Tokens::kind_of_token))]
fn kind_of(byte: u8) -> Option<TokenKind>
    ensures { result ≡ kind_of_token byte }
{
    match byte {
        b'A'..=b'Z' | b'a'..=b'z' | b'_' | b'.' => Some(TokenKind::Name),
        b'0'..=b'9' | b'-' => Some(TokenKind::Number),
        b'$' => Some(TokenKind::Register),
        b'"' => Some(TokenKind::Text),
        b',' => Some(TokenKind::Comma),
        b':' => Some(TokenKind::Colon),
        b'(' => Some(TokenKind::Left),
        b')' => Some(TokenKind::Right),
        _ => None,
    }
}

/// How many bytes the token of this kind takes that begins with the first of these bytes.
#[tactic(auto, unfolding(crate::specs::Tokens::size_of_token))]
fn size_of(kind: TokenKind, bytes: &[u8]) -> Option<usize>
    requires { 0 < length bytes.now }
    ensures value { result ≡ size_of_token kind bytes.now }
    ensures within { IfSome result (λ size. (0 < size) × (size ≤ length bytes.now)) }
{
    match kind {
        TokenKind::Name => Some(run_of(bytes)),
        TokenKind::Number => {
            let run = run_of(bytes);
            integer(&bytes[..run]).map(|_| run)
        }
        TokenKind::Register => {
            let run = run_of(bytes);
            register(&bytes[..run]).map(|_| run)
        }
        TokenKind::Text => behind_quote(&bytes[1..]).map(|behind| bytes.len() - behind.len()),
        TokenKind::Comma | TokenKind::Colon | TokenKind::Left | TokenKind::Right => Some(1),
    }
}

/// The first byte, and how many letters, digits, `_` and `.` follow it.
fn run_of(bytes: &[u8]) -> usize
    requires { 0 < length bytes.now }
    ensures value { result ≡ name_run_size bytes.now }
    ensures within { result ≤ length bytes.now }
{
    1 + name_bytes(&bytes[1..])
}

fn name_bytes(bytes: &[u8]) -> usize
    ensures value { result ≡ prefix_len is_name_byte bytes.now }
    ensures within { result ≤ length bytes.now }
{
    bytes.iter().take_while(|byte| is_name_byte(**byte)).count()
}

fn is_name_byte(byte: u8) -> bool
    ensures { result ≡ is_name_byte byte }
{
    byte.is_ascii_alphanumeric() || byte == b'_' || byte == b'.'
}

/// How many blanks stand in front.
fn blanks(bytes: &[u8]) -> usize
    ensures value { result ≡ prefix_len is_blank bytes.now }
    ensures within { result ≤ length bytes.now }
{
    bytes.iter().take_while(|byte| is_blank(**byte)).count()
}

fn is_blank(byte: u8) -> bool
    ensures { result ≡ is_blank byte }
{
    byte == b' ' || byte == b'\t' || byte == b'\r'
}
