ghost use Rattle.std.specs.Prelude.{◌≡◌, ◌≤◌, ◌+◌, ◌%◌};
ghost use Rattle.mips_plain.specs.Memory.{low_bytes, written_at};
ghost use Rattle.xom_model.specs.Guest.{stored_at, word_in as word_in_of, word_loaded as word_loaded_of};
ghost use Rattle.xom_guest.specs.Places.{CanStore};

use line_cache::LineCache;
use mips_effect::Wish;
use xom_base::Stored;

/// The big-endian word of a line that holds an address.
pub fn word_in(bytes: &[u8; 32], address: u32) -> u32
    ensures { result ≡ word_in_of bytes.now address }
{
    let at = (address - address % 4) as usize % 32;
    let mut word = [0; 4];
    word.copy_from_slice(&bytes[at..at + 4]);
    u32::from_be_bytes(word)
}

/// The word that a load is made of, from its line; 0 where nothing is loaded.
pub fn word_loaded(bytes: &[u8; 32], wish: Wish) -> u32
    ensures { result ≡ word_loaded_of bytes.now wish }
{
    match wish {
        Wish::Load { address, .. } => word_in(bytes, address),
        _ => 0,
    }
}

/// Stores what a step stored in the line at a place, which has still to be sealed then.
pub fn store(cache: &mut LineCache, place: u32, stored: Stored)
    requires { CanStore cache.old.ways place stored }
    ensures { cache.new ≡ record cache.old { ways = stored_at cache.old.ways place stored } }
{
    if let Stored::Bytes {
        address,
        count,
        value,
    } = stored
    {
        put(cache.bytes_mut(place), address, count, value);
    }
}

/// Puts the low bytes of a value at an address's place in its line.
fn put(bytes: &mut [u8; 32], address: u32, count: u8, value: u32)
    requires some { 1 ≤ count }
    requires word { count ≤ 4 }
    requires inside { address % 32 + count ≤ 32 }
    ensures { bytes.new ≡ written_at bytes.old (address % 32) (low_bytes count value) }
{
    let at = address as usize % 32;
    let count = usize::from(count);
    bytes[at..at + count].copy_from_slice(&value.to_be_bytes()[4 - count..]);
}
