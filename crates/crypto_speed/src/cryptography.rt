//! Blocks, tags and digests, each of the one before it, so that none can be left out.

ghost use Rattle.std.specs.Prelude.{◌≤◌};

use aes_block::{Key128, Schedule};
use keyed_mac::MacKey;
use sha2::{Digest, Sha256};

/// The key of FIPS 197, appendix C.1.
const KEY: [u8; 16] = [0, 1, 2, 3, 4, 5, 6, 7, 8, 9, 10, 11, 12, 13, 14, 15];

/// The block of the same example.
const BLOCK: [u8; 16] = [
    0x00, 0x11, 0x22, 0x33, 0x44, 0x55, 0x66, 0x77, 0x88, 0x99, 0xaa, 0xbb, 0xcc, 0xdd, 0xee, 0xff,
];

/// How many bytes of a leaf of a tree are hashed: its level and eight versions.
const LEAF: usize = 65;

/// How many bytes of a block above the leaves are hashed: its level and eight digests.
const NODE: usize = 257;

/// The last of so many blocks, each the encryption of the one before.
pub fn last_block(count: u64) -> [u8; 16] {
    last_block_of(&Schedule::new(&Key128(KEY)), count, BLOCK)
}

fn last_block_of(schedule: &Schedule, count: u64, first: [u8; 16]) -> [u8; 16] {
    let mut block = first;
    for _ in 0..count {
        let next = schedule.encrypt(&block);
        block = next;
    }
    block
}

/// The last of so many tags under one key. Each is of 61 bytes, as the message of a run line has.
pub fn last_tag(count: u64) -> [u8; 32] {
    last_tag_of(&MacKey::new(&KEY), 61, count, [0; 32])
}

/// The last of so many tags of texts of so many bytes, which begin with the tag before.
fn last_tag_of(key: &MacKey, size: usize, count: u64, first: [u8; 32]) -> [u8; 32]
    requires least { 32 ≤ size }
    requires most { size ≤ 61 }
{
    let mut last = first;
    for _ in 0..count {
        let mut text = [0; 61];
        text[..32].copy_from_slice(&last);
        let next = key.tag(&text[..size]);
        last = next;
    }
    last
}

/// The digest of so many blocks of 64 bytes, which has one compression for each, and one for the end.
pub fn digest_of_blocks(count: u64) -> [u8; 32] {
    let block = [0u8; 64];
    let mut hasher = Sha256::new();
    for _ in 0..count {
        hasher.update(&block);
    }
    hasher.finalize()
}

/// The last of so many digests of texts of so many bytes, which begin with the digest before.
fn last_digest(size: usize, count: u64, first: [u8; 32]) -> [u8; 32]
    requires least { 32 ≤ size }
    requires most { size ≤ NODE }
{
    let mut last = first;
    for _ in 0..count {
        let mut text = [0; NODE];
        text[..32].copy_from_slice(&last);
        let next = Sha256::digest(&text[..size]);
        last = next;
    }
    last
}

/// The last digest of so many trees, each of 4,096 leaves and 585 blocks above them.
pub fn last_tree(count: u64) -> [u8; 32] {
    let mut last = [0; 32];
    for _ in 0..count {
        let leaf = last_digest(LEAF, 4096, last);
        let node = last_digest(NODE, 585, leaf);
        last = node;
    }
    last
}

/// What comes out of the cryptography of so many lines of an image that a machine opens and a judge looks
/// at: for each the digests of the five blocks of its path; its tag, whose message has 53 bytes, and its
/// two AES blocks; and these again, since the judge seals it.
pub fn last_miss(count: u64) -> [u8; 32] {
    let key = MacKey::new(&KEY);
    let schedule = Schedule::new(&Key128(KEY));
    let mut last = [0; 32];
    for _ in 0..count {
        let leaf = last_digest(LEAF, 1, last);
        let root = last_digest(NODE, 4, leaf);
        let mut next = last_tag_of(&key, 53, 2, root);
        let block = last_block_of(&schedule, 4, BLOCK);
        next[0] ^= block[0];
        last = next;
    }
    last
}
