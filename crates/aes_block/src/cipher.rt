//! The rounds, FIPS 197, 5.1, on a state of four words: its columns, the first byte of each the highest.

ghost use Rattle.std.specs.Prelude.{◌≡◌, ◌<◌, [], ◌∷◌};
ghost use Rattle.std.specs.Int.{w32, to_be_bytes};
ghost use Rattle.aes_block.specs.Cipher.{cipher, round_of, rounds_of};
ghost use Rattle.aes_block.specs.Columns.{byte_in_row, bytes_of_columns, mixed_column as mixed_column_of, shifted_column as shifted_column_of, words_in};
ghost use Rattle.aes_block.specs.Keys.{add_words, key_word};
ghost use Rattle.aes_block.specs.State.{add_round_key, shift_rows, sub_bytes};

use crate::columns::{FROM_ROW_0, FROM_ROW_1, FROM_ROW_2, FROM_ROW_3, word_in};
use crate::table::s_box;
use crate::word::word_of;

/// CIPHER: the block after ten rounds under the words of a key.
pub fn encrypted(words: &[u32; 44], block: &[u8; 16]) -> [u8; 16]
    ensures { result ≡ cipher (words_in words.now) block.now }
{
    block_of(last_round(words, after_rounds(words, 9, columns_of(block))))
}

/// The state after so many rounds, of at most 9.
#[inline(always)]
pub fn after_rounds(words: &[u32; 44], rounds: usize, start: [u32; 4]) -> [u32; 4]
    requires { rounds < 10 }
    ensures { bytes_of_columns result ≡ rounds_of (words_in words.now) rounds (bytes_of_columns start) }
{
    let mut state = first_key_added(words, start);
    for done in 0..rounds {
        let next = round_of(words, done + 1, state);
        state = next;
    }
    state
}

/// ADDROUNDKEY before the first round.
#[inline(always)]
fn first_key_added(words: &[u32; 44], start: [u32; 4]) -> [u32; 4]
    ensures { bytes_of_columns result ≡ add_round_key (words_in words.now) 0 (bytes_of_columns start) }
{
    let [a, b, c, d] = start;
    [a ^ words[0], b ^ words[1], c ^ words[2], d ^ words[3]]
}

/// One of the rounds 1 to 9.
#[inline(always)]
fn round_of(words: &[u32; 44], round: usize, state: [u32; 4]) -> [u32; 4]
    requires { round < 10 }
    ensures { bytes_of_columns result ≡ round_of (words_in words.now) round (bytes_of_columns state) }
{
    let [a, b, c, d] = state;
    [
        mixed_column(words[4 * round], a, b, c, d),
        mixed_column(words[4 * round + 1], b, c, d, a),
        mixed_column(words[4 * round + 2], c, d, a, b),
        mixed_column(words[4 * round + 3], d, a, b, c),
    ]
}

/// Round 10, which mixes no columns.
#[inline(always)]
fn last_round(words: &[u32; 44], state: [u32; 4]) -> [u32; 4]
    ensures { bytes_of_columns result ≡ add_round_key (words_in words.now) 10 (shift_rows (sub_bytes (bytes_of_columns state))) }
{
    let [a, b, c, d] = state;
    [
        shifted_column(words[40], a, b, c, d),
        shifted_column(words[41], b, c, d, a),
        shifted_column(words[42], c, d, a, b),
        shifted_column(words[43], d, a, b, c),
    ]
}

/// One column of a round: SUBBYTES, SHIFTROWS, which takes each row from a column of its own, MIXCOLUMNS
/// and ADDROUNDKEY.
#[inline(always)]
fn mixed_column(key: u32, a: u32, b: u32, c: u32, d: u32) -> u32
    ensures { to_be_bytes w32 result ≡ add_words (mixed_column_of a b c d) (to_be_bytes w32 key) }
{
    let [row_0, row_1, row_2, row_3] = rows(a, b, c, d);
    let first = word_in(&FROM_ROW_0, row_0);
    let second = word_in(&FROM_ROW_1, row_1);
    let third = word_in(&FROM_ROW_2, row_2);
    let fourth = word_in(&FROM_ROW_3, row_3);
    key ^ first ^ second ^ third ^ fourth
}

/// One column of the last round.
#[inline(always)]
fn shifted_column(key: u32, a: u32, b: u32, c: u32, d: u32) -> u32
    ensures { to_be_bytes w32 result ≡ add_words (shifted_column_of a b c d) (to_be_bytes w32 key) }
{
    let [row_0, row_1, row_2, row_3] = rows(a, b, c, d);
    word_of([s_box(row_0), s_box(row_1), s_box(row_2), s_box(row_3)]) ^ key
}

/// SHIFTROWS for one column: its byte of each row comes from a column of its own.
#[inline(always)]
fn rows(a: u32, b: u32, c: u32, d: u32) -> [u8; 4]
    ensures { result ≡ byte_in_row 0 a ∷ byte_in_row 1 b ∷ byte_in_row 2 c ∷ byte_in_row 3 d ∷ [] }
{
    let [row_0, _, _, _] = a.to_be_bytes();
    let [_, row_1, _, _] = b.to_be_bytes();
    let [_, _, row_2, _] = c.to_be_bytes();
    let [_, _, _, row_3] = d.to_be_bytes();
    [row_0, row_1, row_2, row_3]
}

/// The columns of a block.
#[tactic(auto, unfolding(crate::specs::Keys::key_word))]
#[inline(always)]
pub fn columns_of(block: &[u8; 16]) -> [u32; 4]
    ensures { bytes_of_columns result ≡ block.now }
{
    [
        column(block, 0),
        column(block, 1),
        column(block, 2),
        column(block, 3),
    ]
}

/// One column of a block, 0 to 3, or one word of a key.
#[tactic(auto, unfolding(crate::specs::Keys::key_word))]
#[inline(always)]
pub fn column(block: &[u8; 16], i: usize) -> u32
    requires { i < 4 }
    ensures { to_be_bytes w32 result ≡ key_word block.now i }
{
    word_of([
        block[4 * i],
        block[4 * i + 1],
        block[4 * i + 2],
        block[4 * i + 3],
    ])
}

/// The bytes of four columns.
#[inline(always)]
pub fn block_of(columns: [u32; 4]) -> [u8; 16]
    ensures { result ≡ bytes_of_columns columns }
{
    let a = columns[0].to_be_bytes();
    let b = columns[1].to_be_bytes();
    let c = columns[2].to_be_bytes();
    let d = columns[3].to_be_bytes();
    [
        a[0], a[1], a[2], a[3], b[0], b[1], b[2], b[3], c[0], c[1], c[2], c[3], d[0], d[1], d[2],
        d[3],
    ]
}
