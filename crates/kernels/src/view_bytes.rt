ghost use Rattle.std.specs.Prelude.{◌≡◌, ◌≤◌, ◌<◌, [], ◌∷◌, take};
ghost use Rattle.line_ram.specs.Bytes.{ram_with_bytes};
ghost use Rattle.xom_model.specs.Event.{chunk_size};
ghost use Rattle.kernels.specs.Turns.{byte_shown as byte_shown_in, bytes_shown as bytes_shown_in};

use xom_machine::{Chunk, View};

/// The byte of RAM at an address, 0 outside RAM and past the last address.
pub fn byte_shown(view: &View, address: u64) -> u8
    ensures { result ≡ byte_shown_in view.now address }
{
    match u32::try_from(address) {
        Ok(address) => view.ram_byte(address).unwrap_or(0),
        Err(_) => 0,
    }
}

/// Copies so many bytes of RAM from an address on to the front of the chunk.
pub fn copy_shown(view: &View, from: u32, count: u32, chunk: &mut Chunk)
    requires { count ≤ chunk_size }
    ensures { take count chunk.new ≡ bytes_shown_in view.now from count }
{
    for i in 0..count {
        put_byte(chunk, i, byte_shown(view, u64::from(from) + u64::from(i)));
    }
}

/// Puts a byte at a place of the chunk.
pub fn put_byte(chunk: &mut Chunk, i: u32, byte: u8)
    requires { i < chunk_size }
    ensures { chunk.new ≡ ram_with_bytes chunk.old i (byte ∷ []) }
{
    chunk.put(i, &[byte]);
}
