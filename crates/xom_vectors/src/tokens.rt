//! The tokens of a source line, and what they stand for.
//!
//! - `tokens TEXT = KIND TEXT ..`, `no tokens`, or the fault, as `no token begins at byte 2`. The texts
//!   are those of the tokens.
//! - `register TEXT = N` or `none`
//! - `integer TEXT = N`, with a sign where there is one, or `none`
//! - `unquoted TEXT = TEXT` or `none`: a quoted text and its bytes.

use crate::args::Args;
use crate::fault::{Answer, Fault};
use crate::line::{Line, number_or_none};
use asm_tokens::{Token, TokenFault, TokenKind, integer, register, tokens, unquoted};

/// The result, or none where the kind isn't of this module.
pub fn answer(kind: &str, args: &Args) -> Option<Answer> {
    match (kind, args.len()) {
        ("tokens", 1) => Some(tokens_text(args)),
        ("register", 1) => Some(register_text(args)),
        ("integer", 1) => Some(integer_text(args)),
        ("unquoted", 1) => Some(unquoted_text(args)),
        _ => None,
    }
}

fn tokens_text(args: &Args) -> Answer {
    let source = args.bytes(0)?;
    match tokens(args.alloc(), source) {
        Ok(found) => {
            let mut line = Line::new(args.alloc());
            push_tokens(&mut line, source, found.as_slice());
            line.end()
        }
        Err(TokenFault::NoMemory) => Err(Fault::NoMemory),
        Err(fault) => Ok(format!(in args.alloc(); "{fault}")?),
    }
}

// Adds the kinds and texts of the tokens of a source line.
fn push_tokens(line: &mut Line, source: &[u8], tokens: &[Token]) {
    if tokens.is_empty() {
        line.word("no tokens");
    }
    for token in tokens {
        let bytes = source.get(token.start as usize..token.end as usize);
        line.word(kind_name(token.kind));
        line.quoted(bytes.unwrap_or(&[]));
    }
}

fn kind_name(kind: TokenKind) -> &'static str {
    match kind {
        TokenKind::Name => "Name",
        TokenKind::Number => "Number",
        TokenKind::Register => "Register",
        TokenKind::Text => "Text",
        TokenKind::Comma => "Comma",
        TokenKind::Colon => "Colon",
        TokenKind::Left => "Left",
        TokenKind::Right => "Right",
    }
}

fn register_text(args: &Args) -> Answer {
    let number = register(args.bytes(0)?);
    number_or_none(args.alloc(), number.map(|number| u64::from(number)))
}

fn integer_text(args: &Args) -> Answer {
    let integer = integer(args.bytes(0)?);
    let mut line = Line::new(args.alloc());
    match integer {
        Some(integer) => {
            line.word(if integer.negative { "-" } else { "" });
            line.join_number(integer.magnitude);
        }
        None => line.word("none"),
    }
    line.end()
}

fn unquoted_text(args: &Args) -> Answer {
    let found = unquoted(args.alloc(), args.bytes(0)?)?;
    let mut line = Line::new(args.alloc());
    match &found {
        Some(bytes) => line.quoted(bytes.as_slice()),
        None => line.word("none"),
    }
    line.end()
}
