ghost use Rattle.std.specs.Prelude.{◌≡◌, ◌↔◌, ◌<◌, ◌≤◌, ℕ, List, [], ◌∷◌, IfOk, IfSome, IsNone, Some, false, length, option_and_then, option_map};
ghost use Rattle.std.specs.Str.{bytes_eq};
ghost use Rattle.asm_tokens.specs.Lexemes.{Quotes, after_quote, escape_of, if_whole, quoted_of, read_quoted, written_first as first_of};

use std::alloc::Global;
use xom_base::{ByteList, NoMemory};

/// The bytes that a quoted text stands for, which is given with its two quotes. Within them `\n` is
/// byte 10, `\0` byte 0, `\\` and `\"` the byte itself; each other byte but `"` and `\` stands for
/// itself. None exactly where the text is no such text. It costs time linear in the text.
pub fn unquoted(alloc: Global, text: &[u8]) -> Result<Option<ByteList>, NoMemory>
    ensures exact { IfOk result (λ found. (bytes : List ℕ) → (found ≡ Some bytes) ↔ Quotes text.now bytes) }
    ensures none { IfOk result (λ found. IsNone found ↔ ((bytes : List ℕ) → ¬ Quotes text.now bytes)) }
    ensures value { IfOk result (λ found. found ≡ quoted_of text.now) }
{
    let found = bytes_of(alloc, text)?;
    Ok(found)
}

#[tactic(auto, unfolding(crate::specs::Lexemes::quoted_of))]
fn bytes_of(alloc: Global, text: &[u8]) -> Result<Option<ByteList>, NoMemory>
    ensures { IfOk result (λ found. found ≡ quoted_of text.now) }
{
    match text {
        [b'"', body @ ..] => body_bytes(alloc, body),
        _ => Ok(None),
    }
}

/// The bytes that are written up to the closing quote, where nothing stands behind it.
fn body_bytes(alloc: Global, body: &[u8]) -> Result<Option<ByteList>, NoMemory>
    ensures { IfOk result (λ found. found ≡ option_and_then if_whole (read_quoted false body.now)) }
{
    let mut bytes = ByteList::new(alloc);
    let mut rest = body;
    while let Some((byte, more)) = written_first(rest) {
        bytes.push(byte)?;
        rest = more;
    }
    Ok(if is_quote(rest) { Some(bytes) } else { None })
}

fn is_quote(bytes: &[u8]) -> bool
    ensures { result ≡ bytes_eq bytes.now (34 ∷ []) }
{
    bytes == b"\"".as_slice()
}

/// What stands behind the closing quote. None where an escape is unknown or no quote closes.
pub(crate) fn behind_quote(body: &[u8]) -> Option<&[u8]>
    ensures value { option_map (λ behind. behind.now) result ≡ option_map (λ read. read.1) (read_quoted false body.now) }
    ensures within { IfSome result (λ behind. length behind.now ≤ length body.now) }
{
    let mut rest = body;
    while let Some((_, more)) = written_first(rest) {
        rest = more;
    }
    after_quote(rest)
}

/// What stands behind a quote at the front.
fn after_quote(bytes: &[u8]) -> Option<&[u8]>
    ensures value { option_map (λ behind. behind.now) result ≡ after_quote bytes.now }
    ensures within { IfSome result (λ behind. length behind.now ≤ length bytes.now) }
{
    match bytes {
        [b'"', behind @ ..] => Some(behind),
        _ => None,
    }
}

/// The first byte that is written, and what is left. None at a quote and at an unknown escape, too.
#[tactic(auto, unfolding(crate::specs::Lexemes::written_first))]
fn written_first(body: &[u8]) -> Option<(u8, &[u8])>
    ensures value { option_map (λ read. (read.0, read.1.now)) result ≡ first_of body.now }
    ensures shorter { IfSome result (λ read. length read.1.now < length body.now) }
{
    match body {
        [] | [b'"', ..] => None,
        [b'\\', rest @ ..] => {
            let (letter, more) = rest.split_first()?;
            Some((escape(*letter)?, more))
        }
        [byte, more @ ..] => Some((*byte, more)),
    }
}

/// The byte that the letter of an escape stands for.
#[tactic(auto, unfolding(crate::specs::Lexemes::escape_of))]
fn escape(letter: u8) -> Option<u8>
    ensures { result ≡ escape_of letter }
{
    match letter {
        b'n' => Some(b'\n'),
        b'0' => Some(b'\0'),
        b'\\' | b'"' => Some(letter),
        _ => None,
    }
}
