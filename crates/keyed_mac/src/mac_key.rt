ghost use Rattle.std.specs.Prelude.{◌≡◌, ◌≤◌, ℕ, List, ◌++◌, length};
ghost use Rattle.sha2.specs.Hashers.{Holds256};
ghost use Rattle.sha2.specs.Sha256.{sha256};
ghost use Rattle.keyed_mac.specs.Hmac.{hmac_sha256};

use crate::BLOCK;
use crate::pads::{inner_block, outer_block};
use sha2::{Digest, Sha256};
use std::marker::Model;
use xom_base::Payload;

/// A key of at most 64 bytes, made ready for any number of tags: the two states of SHA-256 after the
/// key's pads. It is seen as the bytes of the key.
#[derive(Drop)]
pub struct MacKey {
    key: Payload<64>,
    inner: Sha256,
    outer: Sha256,
}

impl Model for MacKey {
    ghost use Rattle.std.specs.Prelude.{List, ℕ};
    ghost use Rattle.keyed_mac.specs.Prepared.{IsPrepared};

    ghost Value = { List ℕ };

    ghost view = { λ s. s.key };

    ghost invariant = { λ s. ∥ IsPrepared s.inner s.outer s.key ∥₁ };
}

impl MacKey {
    /// Hashes the pads of a key: 128 bytes.
    pub fn new(key: &[u8]) -> MacKey
        requires { length key.now ≤ BLOCK }
        ensures { result ≡ key.now }
    {
        MacKey {
            key: Payload::new(key),
            inner: Sha256::new_with_prefix(&inner_block(key)),
            outer: Sha256::new_with_prefix(&outer_block(key)),
        }
    }

    /// The tag of a text: HMAC of FIPS 198-1 with SHA-256. It hashes the text once, and 32 bytes beside
    /// it.
    pub fn tag(&self, text: &[u8]) -> [u8; 32]
        ensures { result ≡ hmac_sha256 self.now text.now }
    {
        let inner = digest_behind(&self.inner, text);
        digest_behind(&self.outer, &inner)
    }
}

/// The digest of what the state has hashed and a text behind it. The state stays as it is.
fn digest_behind(state: &Sha256, text: &[u8]) -> [u8; 32]
    ensures { (before : List ℕ) → Holds256 state.now before → result ≡ sha256 (before ++ text.now) }
{
    let mut hasher = state.clone().unwrap();
    hasher.update(text);
    hasher.finalize()
}
