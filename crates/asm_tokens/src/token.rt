ghost use Rattle.std.specs.Prelude.{◌≡◌};
ghost use Rattle.asm_tokens.specs.declared.token.TokenFault.TheVariants as fault;

use thiserror::Error;
use xom_base::{List, NoMemory};

/// What a token is.
#[derive(Clone, Copy, Debug, PartialEq, Eq)]
pub enum TokenKind {
    /// Letters, digits, `_` and `.`, of which the first is no digit.
    Name,
    /// A whole number, decimal or hexadecimal behind `0x`, that may have a `-` in front.
    Number,
    /// `$` and a register's number or name.
    Register,
    /// A text between quotes.
    Text,
    /// `,`
    Comma,
    /// `:`
    Colon,
    /// `(`
    Left,
    /// `)`
    Right,
}

/// A token of a line: its text is the line's bytes from `start` on, and before `end`, counted from 0.
#[derive(Clone, Copy, Debug, PartialEq, Eq)]
pub struct Token {
    /// What it is.
    pub kind: TokenKind,
    /// The place of its first byte.
    pub start: u64,
    /// The place behind its last byte.
    pub end: u64,
}

/// Why a line has no tokens.
#[derive(Clone, Copy, Debug, PartialEq, Eq, Error)]
pub enum TokenFault {
    /// The byte at this place, counted from 0, begins no token. What stands before it is tokens and
    /// blanks.
    #[error("no token begins at byte {0}")]
    Token(u64),
    /// Want of memory.
    #[error("out of memory")]
    NoMemory,
}

impl From<NoMemory> for TokenFault {
    ghost from_gives = { λ _ e. e ≡ fault.NoMemory };

    fn from(_: NoMemory) -> TokenFault {
        TokenFault::NoMemory
    }
}

/// The tokens of a line, in their order.
pub type TokenList = List<Token>;
