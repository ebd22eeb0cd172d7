//! Words of 32 bits as bytes, the first byte the highest.

ghost use Rattle.std.specs.Prelude.{◌≡◌};
ghost use Rattle.std.specs.Int.{w32, to_be_bytes};

/// The word of these bytes.
#[inline(always)]
pub fn word_of(bytes: [u8; 4]) -> u32
    ensures { to_be_bytes w32 result ≡ bytes }
{
    u32::from_be_bytes(bytes)
}
