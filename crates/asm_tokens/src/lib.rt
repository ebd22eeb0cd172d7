//! A line of source, cut into tokens: names, numbers, registers, quoted texts and signs.
//!
//! `tokens` cuts a line, or answers the first byte that begins no token; `next_token` cuts off one token.
//! `register`, `integer` and `unquoted` say what a token's text stands for.
#![tactic(auto)]

mod integers;
mod lexemes;
mod quoted;
mod registers;
mod token;
mod tokenizer;

pub use integers::Integer;
pub use lexemes::integer;
pub use quoted::unquoted;
pub use registers::register;
pub use token::{Token, TokenFault, TokenKind, TokenList};
pub use tokenizer::{next_token, tokens};
