//! The texts of results.

use crate::fault::{Answer, Fault};
use std::alloc::Global;

/// The text of a result, which grows word by word, with a blank between each two words. Want of memory
/// is told at the end.
#[derive(Drop)]
pub struct Line {
    alloc: Global,
    text: String,
    is_cut: bool,
}

impl Line {
    /// The empty text.
    pub fn new(alloc: Global) -> Line {
        Line {
            alloc,
            text: String::new(alloc),
            is_cut: false,
        }
    }

    /// Adds a text behind the last word, without a blank.
    pub fn join(&mut self, text: &str) {
        if self.text.push_str(text).is_err() {
            self.is_cut = true;
        }
    }

    /// Adds a number in decimal, without a blank.
    pub fn join_number(&mut self, number: u64) {
        if write!(&mut self.text, "{number}").is_err() {
            self.is_cut = true;
        }
    }

    /// Adds a value of 32 bits in eight hexadecimal digits, without a blank.
    pub fn join_value(&mut self, value: u32) {
        if write!(&mut self.text, "{value:08x}").is_err() {
            self.is_cut = true;
        }
    }

    fn begin_word(&mut self) {
        if !self.text.is_empty() {
            self.join(" ");
        }
    }

    /// Adds a word as it is.
    pub fn word(&mut self, word: &str) {
        self.begin_word();
        self.join(word);
    }

    /// Adds a number in decimal.
    pub fn number(&mut self, number: u64) {
        self.begin_word();
        self.join_number(number);
    }

    /// Adds a value of 32 bits in eight hexadecimal digits.
    pub fn value(&mut self, value: u32) {
        self.begin_word();
        self.join_value(value);
    }

    /// Adds bytes in hexadecimal digits.
    pub fn hex(&mut self, bytes: &[u8]) {
        match hex::encode(self.alloc, bytes) {
            Ok(digits) => self.word(digits.as_str()),
            Err(_) => self.is_cut = true,
        }
    }

    /// Adds a text between bars. A byte outside of printed ASCII, `%` and `|` are written in digits.
    pub fn quoted(&mut self, bytes: &[u8]) {
        self.word("|");
        for byte in bytes {
            self.join_byte(*byte);
        }
        self.join("|");
    }

    fn join_byte(&mut self, byte: u8) {
        let added = match byte {
            b'%' | b'|' | 0..b' ' | 0x7f.. => write!(&mut self.text, "%{byte:02x}"),
            _ => self.text.push(char::from(byte)),
        };
        if added.is_err() {
            self.is_cut = true;
        }
    }

    /// The whole text.
    pub fn end(self) -> Answer {
        let Line {
            alloc: _,
            text,
            is_cut,
        } = self;
        if is_cut {
            Err(Fault::NoMemory)
        } else {
            Ok(text)
        }
    }
}

/// The text of one word.
pub fn word(alloc: Global, word: &str) -> Answer {
    Ok(String::from_str(alloc, word)?)
}

/// The text of bytes, in hexadecimal digits.
pub fn digits(alloc: Global, bytes: &[u8]) -> Answer {
    let mut line = Line::new(alloc);
    line.hex(bytes);
    line.end()
}

/// The text of a number, or `none`.
pub fn number_or_none(alloc: Global, number: Option<u64>) -> Answer {
    let mut line = Line::new(alloc);
    match number {
        Some(number) => line.number(number),
        None => line.word("none"),
    }
    line.end()
}

/// `yes` or `no`.
pub fn yes_or_no(alloc: Global, holds: bool) -> Answer {
    word(alloc, if holds { "yes" } else { "no" })
}
