ghost use Rattle.std.specs.Prelude.{◌≡◌, ◌<◌, [], slice_index_or};
ghost use Rattle.aes_block.specs.Cipher.{aes128, rounds_of};
ghost use Rattle.aes_block.specs.Keys.{key_expansion};

use crate::cipher::{after_rounds, block_of, columns_of, encrypted};
use crate::expansion::expanded;
use crate::key::Key128;
use std::marker::Model;

/// A key of AES-128, made ready for any number of blocks: its key schedule of FIPS 197, 5.2. It is
/// seen as the 16 bytes of its key.
#[derive(Drop)]
pub struct Schedule {
    words: [u32; 44],
}

impl Model for Schedule {
    ghost use Rattle.std.specs.Prelude.{◌≡◌, List, ℕ};
    ghost use Rattle.aes_block.specs.Columns.{words_in};
    ghost use Rattle.aes_block.specs.Keys.{key_expansion, key_of};

    ghost Value = { List ℕ };

    ghost view = { λ s. key_of (words_in s.words) };

    ghost invariant = { λ s. words_in s.words ≡ key_expansion (key_of (words_in s.words)) };
}

impl Schedule {
    /// Expands a key.
    pub fn new(key: &Key128) -> Schedule
        ensures { result ≡ key.now.0 }
    {
        Schedule {
            words: expanded(&key.0),
        }
    }

    /// The block encrypted under the key: AES-128 of FIPS 197. Bytes stand in the order of the
    /// standard, the first byte first.
    #[tactic(auto, unfolding(crate::specs::Cipher::aes128))]
    pub fn encrypt(&self, block: &[u8; 16]) -> [u8; 16]
        ensures { result ≡ aes128 self.now block.now }
    {
        encrypted(&self.words, block)
    }

    /// A word of the key schedule, 0 to 43.
    pub fn word(&self, i: usize) -> [u8; 4]
        requires { i < 44 }
        ensures { result ≡ slice_index_or (key_expansion self.now) i [] }
    {
        self.words[i].to_be_bytes()
    }

    /// The state after so many rounds, 0 to 9: where the next round starts. Before the first, round
    /// key 0 is added. `encrypt` is nine of them and the last round.
    pub fn after_rounds(&self, rounds: usize, block: &[u8; 16]) -> [u8; 16]
        requires { rounds < 10 }
        ensures { result ≡ rounds_of (key_expansion self.now) rounds block.now }
    {
        block_of(after_rounds(&self.words, rounds, columns_of(block)))
    }
}
