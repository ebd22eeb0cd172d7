ghost use Rattle.std.specs.Prelude.{◌≡◌, ◌++◌};
ghost use Rattle.xom_seal.specs.Sealing.{xor_of_bytes};
ghost use Rattle.aes_block.specs.Cipher.{aes128};

use crate::text::Text;
use aes_block::Schedule;

/// These bytes, each xor one of the pad.
pub fn masked<const N: usize>(bytes: &[u8; N], pad: &[u8; N]) -> [u8; N]
    ensures { result ≡ xor_of_bytes bytes.now pad.now }
{
    let mut masked = *bytes;
    for i in 0..N {
        masked[i] ^= pad[i];
    }
    masked
}

/// What AES-128 makes of two blocks under one key, joined.
pub fn pad_of_two(schedule: &Schedule, first: &[u8; 16], second: &[u8; 16]) -> [u8; 32]
    ensures { result ≡ aes128 schedule.now first.now ++ aes128 schedule.now second.now }
{
    Text::new()
        .and(&schedule.encrypt(first))
        .and(&schedule.encrypt(second))
        .array()
}
