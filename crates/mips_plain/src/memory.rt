ghost use Rattle.std.specs.Prelude.{◌≡◌, ◌≤◌, ◌<◌, ◌+◌, ◌-◌, ◌++◌, ◌∷◌, [], IfOk, slice_index, length, replicate, vec_len, vec_capacity};
ghost use Rattle.xom_base.specs.Padded.{padded_block};
ghost use Rattle.mips_plain.specs.Memory.{blank_memory, low_bytes, private_size, word_at_address, written_at};

use std::alloc::Global;
use std::marker::Model;
use xom_base::{NoMemory, PlainImage};

/// The private memory of a guest, 1,048,576 bytes: those up to the last that was used, and zeros
/// behind them. Room for all is there from the start, so that no store wants memory; what isn't
/// used isn't touched.
#[derive(Drop)]
pub struct Memory {
    bytes: Vec<u8>,
}

impl Model for Memory {
    ghost use Rattle.std.specs.Prelude.{List, ℕ, ◌≤◌, length, vec_capacity};
    ghost use Rattle.xom_base.specs.Padded.{padded_block};
    ghost use Rattle.mips_plain.specs.Memory.{private_size};

    ghost Value = { List ℕ };

    ghost view = { λ m. padded_block private_size m.bytes.items };

    ghost invariant = { λ m. (length m.bytes.items ≤ private_size) × (private_size ≤ vec_capacity m.bytes) };
}

impl Memory {
    /// How many bytes there are.
    pub const SIZE: u32 = 1 << 20;

    /// All zeros.
    #[tactic(auto, using(crate::proofs::Sizes::private_size_is))]
    pub fn new(alloc: Global) -> Result<Memory, NoMemory>
        ensures { IfOk result (λ m. m ≡ blank_memory) }
    {
        let bytes = Vec::with_capacity(alloc, Memory::SIZE as usize)?;
        Ok(Memory { bytes })
    }

    /// Puts an image's bytes at address 0, and zeros behind them.
    #[tactic(auto, using(crate::proofs::Sizes::private_size_is))]
    pub fn load(&mut self, image: &PlainImage)
        ensures { self.new ≡ padded_block private_size image.now.bytes }
    {
        self.bytes.clear();
        match self.bytes.extend_from_slice(image.bytes.as_slice()) {
            Ok(()) => {}
            Err(_) => unreachable!(),
        }
    }

    /// The byte at an address.
    #[tactic(auto, using(crate::proofs::Filled::byte_used, crate::proofs::Filled::byte_unused))]
    pub fn byte(&self, address: u32) -> u8
        requires { address < private_size }
        ensures { result ≡ slice_index self.now address }
    {
        let at = address as usize;
        if at < self.bytes.len() {
            self.bytes[at]
        } else {
            0
        }
    }

    /// The big-endian word whose first byte is at an address.
    #[tactic(auto, using(crate::proofs::Filled::word_bytes, crate::proofs::Sizes::private_size_is))]
    pub fn word(&self, address: u32) -> u32
        requires { address + 4 ≤ private_size }
        ensures { result ≡ word_at_address self.now address }
    {
        u32::from_be_bytes([
            self.byte(address),
            self.byte(address + 1),
            self.byte(address + 2),
            self.byte(address + 3),
        ])
    }

    /// Stores the low bytes of a value, 1 to 4 of them, from an address on, big-endian.
    #[tactic(auto, using(crate::proofs::Sizes::private_size_is))]
    pub fn store(&mut self, address: u32, count: u8, value: u32)
        requires some { 1 ≤ count }
        requires word { count ≤ 4 }
        requires room { address + count ≤ private_size }
        ensures { self.new ≡ written_at self.old address (low_bytes count value) }
    {
        let at = address as usize;
        let count = count as usize;
        reach(&mut self.bytes, at + count);
        put(&mut self.bytes, at, count, value);
    }
}

/// Makes so many bytes used, where there is room: zeros behind those that are.
fn reach(bytes: &mut Vec<u8>, count: usize)
    requires { count ≤ vec_capacity bytes.old }
    ensures items { bytes.new.items ≡ bytes.old.items ++ replicate (count - vec_len bytes.old) 0 }
    ensures len { count ≤ vec_len bytes.new }
    ensures capacity { vec_capacity bytes.old ≤ vec_capacity bytes.new }
{
    if bytes.len() < count {
        match bytes.resize(count, 0) {
            Ok(()) => {}
            Err(_) => unreachable!(),
        }
    }
}

/// Puts the low bytes of a value at a place.
fn put(bytes: &mut Vec<u8>, at: usize, count: usize, value: u32)
    requires some { 1 ≤ count }
    requires word { count ≤ 4 }
    requires room { at + count ≤ vec_len bytes.old }
    ensures items { bytes.new.items ≡ written_at bytes.old.items at (low_bytes count value) }
    ensures capacity { vec_capacity bytes.new ≡ vec_capacity bytes.old }
{
    bytes[at..at + count].copy_from_slice(&value.to_be_bytes()[4 - count..]);
}
