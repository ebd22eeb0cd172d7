//! What several tests begin with: long texts, images of words, and owners.

use std::alloc::Global;
use xom_base::{ByteList, ImageId, Key256, NoMemory, PlainImage};
use xom_owners::Owner;

/// How many bytes the private memory of a guest has.
pub const PRIVATE: usize = 1 << 20;

/// `addiu $8, $0, 7`, `addiu $9, $8, 5`, `xmvtn $9`, `xexit`: releases 12 and ends.
pub const TWELVE: [u32; 4] = [0x2408_0007, 0x2509_0005, 0x4920_0001, 0x4800_0003];

/// This piece so many times.
pub fn repeated(alloc: Global, piece: &[u8], times: usize) -> Result<Vec<u8>, NoMemory> {
    let mut text = Vec::new(alloc);
    for _ in 0..times {
        text.extend_from_slice(piece)?;
    }
    Ok(text)
}

/// The image of these words, entered at its first.
pub fn image_of(alloc: Global, words: &[u32]) -> Result<PlainImage, NoMemory> {
    let mut bytes = Vec::new(alloc);
    for word in words {
        bytes.extend_from_slice(&word.to_be_bytes())?;
    }
    if bytes.len() > PRIVATE {
        return Err(NoMemory);
    }
    Ok(PlainImage {
        entry: 0,
        bytes: ByteList::from_vec(bytes),
    })
}

/// The owner of an image under the key of this byte 32 times and the id of this one 16 times.
pub fn owner_of(plain: PlainImage, key: u8, id: u8) -> Owner {
    Owner {
        plain,
        key: Key256([key; 32]),
        id: ImageId([id; 16]),
    }
}
