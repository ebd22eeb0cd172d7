//! The key schedule, FIPS 197, 5.2: 44 words, the first byte of each the highest.

ghost use Rattle.std.specs.Prelude.{◌≡◌, ◌≤◌, ◌<◌, ◌%◌, take};
ghost use Rattle.std.specs.Int.{w32, to_be_bytes};
ghost use Rattle.aes_block.specs.Columns.{words_in};
ghost use Rattle.aes_block.specs.Keys.{addend, key_expansion, key_of, next_word, rot_word, round_constant, schedule_words, sub_word};

use crate::cipher::column;
use crate::table::s_box;
use crate::word::word_of;

// The round constants' first bytes, of rounds 1 to 10.
const ROUND_CONSTANTS: [u8; 10] = [0x01, 0x02, 0x04, 0x08, 0x10, 0x20, 0x40, 0x80, 0x1b, 0x36];

/// The words of a key.
pub fn expanded(key: &[u8; 16]) -> [u32; 44]
    ensures words { words_in result ≡ key_expansion key.now }
    ensures key { key_of (words_in result) ≡ key.now }
{
    let mut words = first_words(key);
    for i in 4..44 {
        let word = next_word(&words, i);
        words[i] = word;
    }
    words
}

#[tactic(auto, unfolding(crate::specs::Keys::schedule_words))]
fn first_words(key: &[u8; 16]) -> [u32; 44]
    ensures { take 4 (words_in result) ≡ schedule_words key.now 0 }
{
    let mut words = [0; 44];
    words[0] = column(key, 0);
    words[1] = column(key, 1);
    words[2] = column(key, 2);
    words[3] = column(key, 3);
    words
}

#[tactic(auto, unfolding(crate::specs::Keys::next_word))]
fn next_word(words: &[u32; 44], i: usize) -> u32
    requires later { 4 ≤ i }
    requires known { i < 44 }
    ensures { to_be_bytes w32 result ≡ next_word (words_in words.now) i }
{
    words[i - 4] ^ addend(i, words[i - 1])
}

#[tactic(auto, using(crate::proofs::Words::bytes_of_sum), unfolding(crate::specs::Keys::addend))]
fn addend(i: usize, before: u32) -> u32
    requires later { 4 ≤ i }
    requires known { i < 44 }
    ensures { to_be_bytes w32 result ≡ addend i (to_be_bytes w32 before) }
{
    if i % 4 == 0 {
        sub_word(rot_word(before)) ^ round_constant(i / 4)
    } else {
        before
    }
}

#[tactic(auto, using(crate::proofs::Constants::constant_of), unfolding(crate::specs::Keys::round_constant))]
fn round_constant(round: usize) -> u32
    requires first { 1 ≤ round }
    requires last { round ≤ 10 }
    ensures { to_be_bytes w32 result ≡ round_constant round }
{
    word_of([ROUND_CONSTANTS[round - 1], 0, 0, 0])
}

#[tactic(auto, unfolding(crate::specs::Keys::rot_word))]
fn rot_word(word: u32) -> u32
    ensures { to_be_bytes w32 result ≡ rot_word (to_be_bytes w32 word) }
{
    let [a, b, c, d] = word.to_be_bytes();
    word_of([b, c, d, a])
}

#[tactic(auto, unfolding(crate::specs::Keys::sub_word))]
fn sub_word(word: u32) -> u32
    ensures { to_be_bytes w32 result ≡ sub_word (to_be_bytes w32 word) }
{
    let [a, b, c, d] = word.to_be_bytes();
    word_of([s_box(a), s_box(b), s_box(c), s_box(d)])
}
