//! A key as the two blocks that HMAC hashes before its texts, FIPS 198-1, section 4, steps 1 to 4 and 7.

ghost use Rattle.std.specs.Prelude.{◌≡◌, ◌≤◌, length};
ghost use Rattle.keyed_mac.specs.Hmac.{block_key, block_with_pad as masked_of, ipad, opad};

/// The size of a block of SHA-256 in bytes, and of the longest key (FIPS 198-1, section 2.3).
pub const BLOCK: usize = 64;

/// The byte of the inner pad.
const INNER: u8 = 0x36;

/// The byte of the outer pad.
const OUTER: u8 = 0x5c;

/// The block that is hashed before a text.
pub fn inner_block(key: &[u8]) -> [u8; 64]
    requires { length key.now ≤ BLOCK }
    ensures { result ≡ masked_of ipad (block_key key.now) }
{
    masked(&padded(key), INNER)
}

/// The block that is hashed before the inner digest.
pub fn outer_block(key: &[u8]) -> [u8; 64]
    requires { length key.now ≤ BLOCK }
    ensures { result ≡ masked_of opad (block_key key.now) }
{
    masked(&padded(key), OUTER)
}

/// The key with zeros behind it.
fn padded(key: &[u8]) -> [u8; 64]
    requires { length key.now ≤ BLOCK }
    ensures { result ≡ block_key key.now }
{
    let mut block = [0; BLOCK];
    block[..key.len()].copy_from_slice(key);
    block
}

/// Each byte of the block xor that of a pad.
fn masked(block: &[u8; 64], pad: u8) -> [u8; 64]
    ensures { result ≡ masked_of pad block.now }
{
    let mut masked = *block;
    for byte in &mut masked {
        *byte ^= pad;
    }
    masked
}
