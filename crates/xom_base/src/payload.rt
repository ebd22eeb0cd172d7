ghost use Rattle.std.specs.Prelude.{◌≡◌, ◌≤◌, ◌<◌, ◌==◌, length};
ghost use Rattle.xom_base.specs.Padded.{padded_block};

use std::marker::Model;

/// At most `N` bytes, inline, for `N` below 65,536.
#[derive(Clone, Copy)]
pub struct Payload<const N: usize> {
    bytes: [u8; N],
    len: u16,
}

/// A key or a message of the journal: at most 96 bytes.
pub type Short = Payload<96>;

/// A hashed text of the journal: at most 260 bytes.
pub type Block = Payload<260>;

impl<const N: usize> Model for Payload<N> {
    ghost use Rattle.std.specs.Prelude.{List, ℕ, length, take};
    ghost use Rattle.xom_base.specs.Padded.{IsPadded, filled-text, length-text, padded_block, same_at_both};

    ghost Value = { List ℕ };

    ghost view = { λ s. take s.len s.bytes };

    // Behind the text there are zeros, so that one text has one representation.
    ghost invariant = { λ s. IsPadded N s.len s.bytes };

    ghost inverse = { λ text. record { bytes = padded_block N text; len = length text } };

    ghost inverse_ok = { λ s padded. same_at_both (λ b n. record { bytes = b; len = n }) (filled-text N s.len s.bytes padded) (length-text N s.len s.bytes padded) };
}

impl<const N: usize> Payload<N> {
    /// These bytes.
    pub fn new(bytes: &[u8]) -> Payload<N>
        requires room { length bytes.now ≤ N }
        requires small { N < 65536 }
        ensures { result ≡ bytes.now }
    {
        let mut block = [0u8; N];
        let len = bytes.len();
        block[..len].copy_from_slice(bytes);
        Payload {
            bytes: block,
            len: len as u16,
        }
    }

    /// How many bytes there are.
    pub fn len(&self) -> usize
        ensures value { result ≡ length self.now }
        ensures room { result ≤ N }
    {
        usize::from(self.len)
    }

    /// Whether there is none.
    pub fn is_empty(&self) -> bool
        ensures { result ≡ (length self.now == 0) }
    {
        self.len == 0
    }

    /// The bytes again.
    pub fn bytes(&self) -> &[u8]
        ensures { result.now ≡ self.now }
    {
        &self.bytes[..usize::from(self.len)]
    }
}
