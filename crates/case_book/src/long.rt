//! What a book says of a long file in few words: the count of its lines, its digest, and some of its
//! lines.

use sha2::{Digest, Sha256};
use std::alloc::Global;
use text_lines::split_lines;
use xom_base::NoMemory;

/// The two words at the front of a text, and the rest; none where one of the three is missing.
pub fn two_words(text: &str) -> Option<(&str, &str, &str)> {
    let (first, rest) = text.split_once(' ')?;
    let (second, rest) = rest.split_once(' ')?;
    if rest.is_empty() {
        None
    } else {
        Some((first, second, rest))
    }
}

/// Whether a file has so many lines, and this SHA-256, in lower case.
pub fn has_sum(alloc: Global, file: &[u8], lines: &str, digest: &str) -> Result<bool, NoMemory> {
    let sum = hex::encode(alloc, Sha256::digest(file).as_slice())?;
    let count = split_lines(alloc, file)?.len();
    Ok(lines.parse() == Ok(count as u64) && sum.as_str() == digest)
}

/// Whether the lines FIRST to LAST of a file are these, of which there is at least one.
pub fn has_lines(
    alloc: Global,
    file: &[u8],
    first: &str,
    last: &str,
    wanted: &[u8],
) -> Result<bool, NoMemory> {
    let (Ok(first), Ok(last)) = (first.parse::<usize>(), last.parse::<usize>()) else {
        return Ok(false);
    };
    let Some(before) = first.checked_sub(1) else {
        return Ok(false);
    };
    let lines = split_lines(alloc, file)?;
    let wanted = split_lines(alloc, wanted)?;
    let found = lines.as_slice().get(before..last);
    Ok(!wanted.is_empty() && found == Some(wanted.as_slice()))
}
