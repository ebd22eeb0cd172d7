//! The words of a vector, read as what they stand for.

use crate::fault::Fault;
use crate::names::{Names, hex_byte};
use std::alloc::Global;
use text_lines::{number, number_below};
use xom_base::{ImageId, Key256, NoMemory};

#[derive(Drop)]
struct Word {
    /// The word as it is written; nothing where it is a text between bars.
    written: String,
    /// The bytes that it stands for, if it can stand for bytes.
    bytes: Option<Vec<u8>>,
}

/// The words behind a vector's kind, counted from 0. A word that is missing, or isn't of the form
/// that is asked for, makes the vector unreadable.
#[derive(Drop)]
pub struct Args {
    alloc: Global,
    words: Vec<Word>,
}

impl Args {
    /// Cuts a text into its words. Unreadable where a text isn't closed, or a byte in it isn't written
    /// with two digits.
    pub fn read(alloc: Global, text: &str, names: &Names) -> Result<Args, Fault> {
        let mut args = Args {
            alloc,
            words: Vec::new(alloc),
        };
        let mut is_text = false;
        for piece in text.split('|') {
            if is_text {
                args.push_text(piece)?;
            } else {
                args.push_words(piece, names)?;
            }
            is_text = !is_text;
        }
        if is_text {
            Ok(args)
        } else {
            Err(Fault::Unreadable)
        }
    }

    fn push_text(&mut self, text: &str) -> Result<(), Fault> {
        let bytes = text_bytes(self.alloc, text)?;
        self.words.push(Word {
            written: String::new(self.alloc),
            bytes: Some(bytes),
        })?;
        Ok(())
    }

    fn push_words(&mut self, text: &str, names: &Names) -> Result<(), NoMemory> {
        for word in text.split_whitespace() {
            let bytes = names.bytes_of(word)?;
            let written = String::from_str(self.alloc, word)?;
            self.words.push(Word { written, bytes })?;
        }
        Ok(())
    }

    /// What makes the texts of results.
    pub fn alloc(&self) -> Global {
        self.alloc
    }

    /// How many words there are.
    pub fn len(&self) -> usize {
        self.words.len()
    }

    /// A word as it is written, without bars.
    pub fn written(&self, place: usize) -> Result<&str, Fault> {
        match self.words.get(place) {
            Some(word) => Ok(word.written.as_str()),
            None => Err(Fault::Unreadable),
        }
    }

    /// The bytes of a word.
    pub fn bytes(&self, place: usize) -> Result<&[u8], Fault> {
        let word = self.words.get(place).ok_or(Fault::Unreadable)?;
        match &word.bytes {
            Some(bytes) => Ok(bytes.as_slice()),
            None => Err(Fault::Unreadable),
        }
    }

    /// The bytes of a word, where they are so many.
    pub fn array<const N: usize>(&self, place: usize) -> Result<[u8; N], Fault> {
        let bytes = self.bytes(place)?;
        if bytes.len() != N {
            return Err(Fault::Unreadable);
        }
        let mut array = [0; N];
        array.copy_from_slice(bytes);
        Ok(array)
    }

    /// A key of 32 bytes.
    pub fn key(&self, place: usize) -> Result<Key256, Fault> {
        Ok(Key256(self.array(place)?))
    }

    /// The id of an image, of 16 bytes.
    pub fn id(&self, place: usize) -> Result<ImageId, Fault> {
        Ok(ImageId(self.array(place)?))
    }

    /// A value of 32 bits, of eight hexadecimal digits.
    pub fn value(&self, place: usize) -> Result<u32, Fault> {
        Ok(u32::from_be_bytes(self.array(place)?))
    }

    /// A number of 64 bits.
    pub fn number(&self, place: usize) -> Result<u64, Fault> {
        number(self.written(place)?.as_bytes()).ok_or(Fault::Unreadable)
    }

    /// A number of 32 bits.
    pub fn number32(&self, place: usize) -> Result<u32, Fault> {
        match number_below(self.written(place)?.as_bytes(), 1 << 32) {
            Some(number) => Ok(number as u32),
            None => Err(Fault::Unreadable),
        }
    }

    /// A number of 8 bits.
    pub fn number8(&self, place: usize) -> Result<u8, Fault> {
        match number_below(self.written(place)?.as_bytes(), 1 << 8) {
            Some(number) => Ok(number as u8),
            None => Err(Fault::Unreadable),
        }
    }
}

// The bytes of a text between bars.
fn text_bytes(alloc: Global, text: &str) -> Result<Vec<u8>, Fault> {
    let (front, coded) = text.split_once('%').unwrap_or((text, ""));
    let mut bytes = Vec::from_slice(alloc, front.as_bytes())?;
    if front.len() == text.len() {
        return Ok(bytes);
    }
    for piece in coded.split('%') {
        let (digits, rest) = piece.split_at_checked(2).ok_or(Fault::Unreadable)?;
        bytes.push(hex_byte(digits).ok_or(Fault::Unreadable)?)?;
        bytes.extend_from_slice(rest.as_bytes())?;
    }
    Ok(bytes)
}
