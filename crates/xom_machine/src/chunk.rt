ghost use Rattle.std.specs.Prelude.{◌≡◌, ◌<◌, ◌≤◌, ◌+◌, IfOk, length, replicate, slice_index, slice_set, take};
ghost use Rattle.line_ram.specs.Bytes.{ram_with_bytes};
ghost use Rattle.xom_model.specs.Event.{chunk_size};

use std::alloc::Global;
use std::marker::Model;
use xom_base::NoMemory;

/// The bytes of a kernel write or of a bus write: 8,192 of them, of which a write takes the first.
#[derive(Drop)]
pub struct Chunk {
    bytes: Vec<u8>,
}

impl Model for Chunk {
    ghost use Rattle.std.specs.Prelude.{List, ℕ, length, ◌≡◌};
    ghost use Rattle.xom_model.specs.Event.{chunk_size};

    ghost Value = { List ℕ };

    ghost view = { λ c. c.bytes.items };

    ghost invariant = { λ c. length c.bytes.items ≡ chunk_size };
}

impl Chunk {
    /// How many bytes a chunk has.
    pub const SIZE: u32 = 8192;

    /// All zeros.
    pub fn new(alloc: Global) -> Result<Chunk, NoMemory>
        ensures { IfOk result (λ c. c ≡ replicate chunk_size 0) }
    {
        let bytes = vec![in alloc; 0u8; 8192]?;
        Ok(Chunk { bytes })
    }

    /// The byte at a place, below 8,192.
    pub fn get(&self, i: u32) -> u8
        requires { i < chunk_size }
        ensures { result ≡ slice_index self.now i }
    {
        self.bytes[i as usize]
    }

    /// Sets the byte at a place, below 8,192.
    pub fn set(&mut self, i: u32, byte: u8)
        requires { i < chunk_size }
        ensures { self.new ≡ slice_set self.old i byte }
    {
        self.bytes[i as usize] = byte;
    }

    /// Puts bytes from a place on, up to the last place at most.
    pub fn put(&mut self, place: u32, bytes: &[u8])
        requires { place + length bytes.now ≤ chunk_size }
        ensures { self.new ≡ ram_with_bytes self.old place bytes.now }
    {
        let from = place as usize;
        let end = from + bytes.len();
        self.bytes.slice_mut(from..end).copy_from_slice(bytes);
    }

    /// The first bytes, at most 8,192.
    pub fn front(&self, count: u32) -> &[u8]
        requires { count ≤ chunk_size }
        ensures { result.now ≡ take count self.now }
    {
        &self.bytes[..count as usize]
    }
}
