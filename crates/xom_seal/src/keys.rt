ghost use Rattle.std.specs.Prelude.{◌≡◌, ◌∷◌, ◌++◌, take, drop};
ghost use Rattle.std.specs.Int.{w64, to_be_bytes};
ghost use Rattle.keyed_mac.specs.Hmac.{hmac_sha256};
ghost use Rattle.xom_seal.specs.Keys.{image_keys as image_keys_of, register_key_bytes, register_keys as register_keys_of, run_keys as run_keys_of, envelope_aes_key};

use crate::text::{Text, part};
use aes_block::Key128;
use keyed_mac::tag;
use xom_base::{ImageId, Key256};

/// The prefix under which the tag key of an install's lines is derived.
const LINE_TAG: u8 = 0x10;

/// That of their AES key.
const LINE_AES: u8 = 0x11;

/// That of both keys of registers.
const REGISTERS: u8 = 0x12;

/// That of the key that wraps an image key.
const ENVELOPE: u8 = 0x13;

/// That of the AES key of an image's lines.
const IMAGE_AES: u8 = 0x14;

/// The keys of an image's lines, or of those that the machine writes for an install.
#[derive(Clone, Copy, Debug, PartialEq, Eq)]
pub struct LineKeys {
    /// The key of the tags.
    pub tag: Key256,
    /// The key of the ciphertexts.
    pub aes: Key128,
}

/// The keys of saved registers under one epoch.
#[derive(Clone, Copy, Debug, PartialEq, Eq)]
pub struct RegisterKeys {
    /// The key of the ciphertexts.
    pub aes: Key128,
    /// The key of the tags.
    pub tag: Key128,
}

/// The keys of an image's lines. The tag key is the image key itself.
#[tactic(auto, unfolding(crate::specs::Keys::image_aes_key))]
pub fn image_keys(key: &Key256, id: &ImageId) -> LineKeys
    ensures { result ≡ image_keys_of key.now id.now }
{
    let aes = tag(&key.0, Text::of(IMAGE_AES).and(&id.0).bytes());
    LineKeys {
        tag: *key,
        aes: first_half(&aes),
    }
}

/// The keys of the lines that the machine writes for an install.
#[tactic(auto, unfolding(crate::specs::Keys::run_tag_key, crate::specs::Keys::run_aes_key))]
pub fn run_keys(key: &Key256, boot: u64, install: u64) -> LineKeys
    ensures { result ≡ run_keys_of key.now boot install }
{
    LineKeys {
        tag: Key256(run_key(LINE_TAG, key, boot, install)),
        aes: first_half(&run_key(LINE_AES, key, boot, install)),
    }
}

/// What the image key and an install give under a prefix.
fn run_key(prefix: u8, key: &Key256, boot: u64, install: u64) -> [u8; 32]
    ensures { result ≡ hmac_sha256 key.now.0 (prefix ∷ (to_be_bytes w64 boot ++ to_be_bytes w64 install)) }
{
    tag(&key.0, install_text(prefix, boot, install).bytes())
}

/// A prefix and the name of an install.
fn install_text(prefix: u8, boot: u64, install: u64) -> Text
    ensures { result ≡ prefix ∷ (to_be_bytes w64 boot ++ to_be_bytes w64 install) }
{
    Text::of(prefix)
        .and(&boot.to_be_bytes())
        .and(&install.to_be_bytes())
}

/// The keys of an install's saved registers under an epoch.
pub fn register_keys(key: &Key256, boot: u64, install: u64, epoch: u64) -> RegisterKeys
    ensures { result ≡ register_keys_of key.now boot install epoch }
{
    let both = both_register_keys(key, boot, install, epoch);
    RegisterKeys {
        aes: first_half(&both),
        tag: last_half(&both),
    }
}

/// Both keys of an install's saved registers, one behind the other.
#[tactic(auto, unfolding(crate::specs::Keys::register_key_bytes))]
fn both_register_keys(key: &Key256, boot: u64, install: u64, epoch: u64) -> [u8; 32]
    ensures { result ≡ register_key_bytes key.now.0 boot install epoch }
{
    tag(&key.0, register_text(boot, install, epoch).bytes())
}

/// The text from which they are derived.
fn register_text(boot: u64, install: u64, epoch: u64) -> Text
    ensures { result ≡ REGISTERS ∷ (to_be_bytes w64 boot ++ (to_be_bytes w64 install ++ to_be_bytes w64 epoch)) }
{
    install_text(REGISTERS, boot, install).and(&epoch.to_be_bytes())
}

/// The key that wraps an image key in the envelope of this id.
#[tactic(auto, unfolding(crate::specs::Keys::envelope_aes_key))]
pub fn envelope_key(machine: &Key256, id: &ImageId) -> Key128
    ensures { result.0 ≡ envelope_aes_key machine.now.0 id.now.0 }
{
    let aes = tag(&machine.0, Text::of(ENVELOPE).and(&id.0).bytes());
    first_half(&aes)
}

/// The first 16 bytes as a key.
fn first_half(bytes: &[u8; 32]) -> Key128
    ensures { result.0 ≡ take 16 bytes.now }
{
    Key128(part(bytes, 0))
}

/// The last 16 bytes as a key.
fn last_half(bytes: &[u8; 32]) -> Key128
    ensures { result.0 ≡ drop 16 bytes.now }
{
    Key128(part(bytes, 16))
}
