//! The words of a call, as they stand in a book.

use std::alloc::Global;
use xom_base::NoMemory;

/// The words of a text, or none where a quote isn't closed. Blanks part them, and what stands between
/// two quotes is one word.
pub fn words(alloc: Global, text: &str) -> Result<Option<Vec<String>>, NoMemory> {
    let mut words = Vec::new(alloc);
    let mut is_quoted = false;
    for part in text.split('"') {
        if is_quoted {
            words.push(String::from_str(alloc, part)?)?;
        } else {
            add_words(alloc, &mut words, part)?;
        }
        is_quoted = !is_quoted;
    }
    Ok(if is_quoted { Some(words) } else { None })
}

// Appends the words of a text without quotes.
fn add_words(alloc: Global, words: &mut Vec<String>, text: &str) -> Result<(), NoMemory> {
    for word in text.split_whitespace() {
        words.push(String::from_str(alloc, word)?)?;
    }
    Ok(())
}
