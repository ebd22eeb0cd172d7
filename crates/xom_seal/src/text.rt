ghost use Rattle.std.specs.Prelude.{◌≡◌, ◌≤◌, ◌+◌, ◌++◌, [], ◌∷◌, drop, length, take};

use std::marker::Model;
use xom_base::Short;

/// The most bytes that a text may have, which are those of a `Short`.
const ROOM: usize = 96;

/// A short text that is put together part by part.
#[derive(Drop)]
pub struct Text {
    bytes: [u8; 96],
    len: usize,
}

impl Model for Text {
    ghost use Rattle.std.specs.Prelude.{◌≤◌, List, ℕ, take};

    ghost Value = { List ℕ };

    ghost view = { λ s. take s.len s.bytes };

    ghost invariant = { λ s. s.len ≤ 96 };
}

impl Text {
    /// The empty text.
    pub fn new() -> Text
        ensures { result ≡ [] }
    {
        Text {
            bytes: [0; ROOM],
            len: 0,
        }
    }

    /// The text of one byte.
    pub fn of(byte: u8) -> Text
        ensures { result ≡ byte ∷ [] }
    {
        Text::new().and(&[byte])
    }

    /// This text and a part behind it.
    pub fn and(mut self, part: &[u8]) -> Text
        requires { length self + length part.now ≤ ROOM }
        ensures value { result ≡ self ++ part.now }
        ensures length { length result ≡ length self + length part.now }
    {
        let start = self.len;
        let end = start + part.len();
        self.bytes[start..end].copy_from_slice(part);
        self.len = end;
        self
    }

    /// Its bytes.
    pub fn bytes(&self) -> &[u8]
        ensures value { result.now ≡ self.now }
        ensures room { length result.now ≤ ROOM }
    {
        &self.bytes[..self.len]
    }

    /// Its bytes as an array, where there are that many.
    pub fn array<const N: usize>(&self) -> [u8; N]
        requires { length self.now ≡ N }
        ensures { result ≡ self.now }
    {
        let mut array = [0; N];
        array.copy_from_slice(self.bytes());
        array
    }

    /// Its bytes as a text of the journal.
    pub fn short(&self) -> Short
        ensures { result ≡ self.now }
    {
        Short::new(self.bytes())
    }
}

/// So many bytes from this place of a text on.
pub fn part<const N: usize>(text: &[u8], place: usize) -> [u8; N]
    requires { place + N ≤ length text.now }
    ensures { result ≡ take N (drop place text.now) }
{
    let mut part = [0; N];
    part.copy_from_slice(&text[place..place + N]);
    part
}
