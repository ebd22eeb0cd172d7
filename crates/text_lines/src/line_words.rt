ghost use Rattle.std.specs.Prelude.{◌≡◌, ◌==◌, ◌<◌, ◌≤◌, ◌↔◌, not, length, IfOk, IfSome, IsNone, map, option_map, position};
ghost use Rattle.std.specs.List.{before_first};
ghost use Rattle.text_lines.specs.Words.{after_word, begins_comment, cut_of, ends_word, is_blank, next_of, past_blanks, word_len, words_of};

use arrayvec::ArrayVec;
use std::alloc::Global;
use xom_base::NoMemory;

/// The words of a line: what stands before the first `#`, between spaces, tabs and bytes 13. It
/// costs time linear in the line, and memory for the list alone.
pub fn words(alloc: Global, line: &[u8]) -> Result<Vec<&[u8]>, NoMemory>
    ensures { IfOk result (λ found. map (λ word. word.now) found.items ≡ words_of line.now) }
{
    let found = before_comment(line)
        .split(|byte| is_blank(*byte))
        .filter(|part| !part.is_empty())
        .collect(alloc)?;
    Ok(found)
}

/// The next word of a line, and what stands behind it. None where there is no further word. It takes
/// no memory, and time linear in what stands before the word's end.
pub fn next_word(line: &[u8]) -> Option<(&[u8], &[u8])>
    ensures value { option_map (λ parts. (parts.0.now, parts.1.now)) result ≡ next_of line.now }
    ensures words { words_of line.now ≡ after_word (option_map (λ parts. (parts.0.now, parts.1.now)) result) }
{
    first_word(line)
}

/// The words of a line that has at most `N`. None where there are more. It takes no memory, and time
/// linear in the line.
pub fn few_words<const N: usize>(line: &[u8]) -> Option<ArrayVec<&[u8], N>>
    ensures some { IfSome result (λ found. map (λ word. word.now) found.items ≡ words_of line.now) }
    ensures none { IsNone result ↔ (N < length (words_of line.now)) }
{
    let mut found = ArrayVec::new();
    let mut rest = line;
    for taken in 0..N {
        match next_word(rest) {
            None => return Some(found),
            Some((word, after)) => {
                found.push(word);
                rest = after;
            }
        }
    }
    match next_word(rest) {
        None => Some(found),
        Some(_) => None,
    }
}

/// What stands before the first byte `at`, and what behind it. None where there is no such byte.
pub fn cut(bytes: &[u8], at: u8) -> Option<(&[u8], &[u8])>
    ensures { option_map (λ parts. (parts.0.now, parts.1.now)) result ≡ cut_of at bytes.now }
{
    let place = place_of(bytes, at)?;
    Some((&bytes[..place], &bytes[place + 1..]))
}

fn place_of(bytes: &[u8], wanted: u8) -> Option<usize>
    ensures { result ≡ position (λ byte. byte == wanted) bytes.now }
{
    bytes.iter().position(|byte| *byte == wanted)
}

fn before_comment(line: &[u8]) -> &[u8]
    ensures { result.now ≡ before_first begins_comment line.now }
{
    match place_of(line, b'#') {
        Some(place) => &line[..place],
        None => line,
    }
}

fn first_word(line: &[u8]) -> Option<(&[u8], &[u8])>
    ensures { option_map (λ parts. (parts.0.now, parts.1.now)) result ≡ next_of line.now }
{
    let from = past_blanks(line);
    let len = length_of_word(from);
    if len == 0 {
        None
    } else {
        Some((&from[..len], &from[len..]))
    }
}

/// What stands behind the blanks at the front.
#[tactic(auto, using(crate::proofs::NextLaws::place_some, crate::proofs::NextLaws::place_none))]
fn past_blanks(line: &[u8]) -> &[u8]
    ensures { result.now ≡ past_blanks line.now }
{
    match first_other(line) {
        Some(place) => &line[place..],
        None => &line[line.len()..],
    }
}

/// The place of the first byte that isn't blank.
fn first_other(line: &[u8]) -> Option<usize>
    ensures { result ≡ position (λ byte. not (is_blank byte)) line.now }
{
    line.iter().position(|byte| !is_blank(*byte))
}

/// How many bytes the word at the front has.
#[tactic(auto, using(crate::proofs::NextLaws::place_some, crate::proofs::NextLaws::place_none, crate::proofs::NextLaws::word_fits))]
fn length_of_word(line: &[u8]) -> usize
    ensures value { result ≡ word_len line.now }
    ensures small { result ≤ length line.now }
{
    match first_end(line) {
        Some(place) => place,
        None => line.len(),
    }
}

fn first_end(line: &[u8]) -> Option<usize>
    ensures { result ≡ position ends_word line.now }
{
    line.iter().position(|byte| ends_word(*byte))
}

fn ends_word(byte: u8) -> bool
    ensures { result ≡ ends_word byte }
{
    is_blank(byte) || byte == b'#'
}

fn is_blank(byte: u8) -> bool
    ensures { result ≡ is_blank byte }
{
    byte == b' ' || byte == b'\t' || byte == b'\r'
}
