//! HMAC with SHA-256 as its hash, the digests of SHA-256, and the comparison of tags.
//!
//! A key that serves for many tags is prepared once, so that its pads aren't hashed again. Nothing here
//! takes memory. What a tag is stands in `specs/Hmac.antt`, after FIPS 198-1.
#![tactic(auto)]

ghost use Rattle.std.specs.Prelude.{◌≡◌, ◌≤◌, ◌↔◌, IsTrue, length};
ghost use Rattle.sha2.specs.Sha256.{sha256};
ghost use Rattle.keyed_mac.specs.Hmac.{hmac_sha256};
ghost use Rattle.keyed_mac.specs.Laws.{TagsHaveTheirLength};

mod mac_key;
mod pads;

pub use mac_key::MacKey;
pub use pads::BLOCK;
use sha2::{Digest, Sha256};

/// The tag of a text under a key of at most 64 bytes: HMAC of FIPS 198-1 with SHA-256.
/// It hashes the text once, and 160 bytes beside it.
pub fn tag(key: &[u8], text: &[u8]) -> [u8; 32]
    requires { length key.now ≤ BLOCK }
    ensures { result ≡ hmac_sha256 key.now text.now }
{
    MacKey::new(key).tag(text)
}

/// The digest of a text by SHA-256 (FIPS 180-4, section 6.2).
pub fn digest(text: &[u8]) -> [u8; 32]
    ensures { result ≡ sha256 text.now }
{
    Sha256::digest(text)
}

/// Whether two tags are equal. It looks at all their bytes, wherever they differ.
pub fn matches(a: &[u8; 32], b: &[u8; 32]) -> bool
    ensures { IsTrue result ↔ (a.now ≡ b.now) }
{
    let mut difference = 0;
    for i in 0..a.len() {
        difference |= a[i] ^ b[i];
    }
    difference == 0
}

/// A law and no code: a tag has 32 bytes, whatever the key and the text.
#[tactic(auto, using(crate::proofs::Lengths::tags_have_their_length))]
pub fn tags_have_their_length()
    ensures { TagsHaveTheirLength }
{}
