ghost use Rattle.std.specs.Prelude.{◌≡◌, SomeIff};
ghost use Rattle.std.specs.Int.{w32, from_be_bytes};
ghost use Rattle.xom_seal.specs.Sealing.{register_masked, register_tag, sealed_register, unsealed_register};

use crate::{RegName, RegisterKeys, RegisterSealer};
use xom_base::Short;

/// A saved register as it stands off the chip.
#[derive(Clone, Copy, Debug, PartialEq, Eq)]
pub struct SealedReg {
    /// The ciphertext.
    pub ct: [u8; 4],
    /// The tag of the register's message.
    pub tag: [u8; 32],
}

/// A register that was sealed.
#[derive(Clone, Copy)]
pub struct RegisterSealing {
    /// The register as it stands off the chip.
    pub sealed: SealedReg,
    /// The message that was tagged.
    pub message: Short,
}

/// A sealed register that was opened.
#[derive(Clone, Copy)]
pub struct RegisterOpening {
    /// The register's value.
    pub value: u32,
    /// The message whose tag it has.
    pub message: Short,
}

/// The sealing of a register's value, under keys that are made ready for this one register.
pub fn seal_register(name: &RegName, keys: &RegisterKeys, value: u32) -> SealedReg
    ensures { result ≡ sealed_register name.now keys.now value }
{
    RegisterSealer::new(keys).seal(name, value).sealed
}

/// The value of a sealed register, under keys that are made ready for this one register. None exactly
/// where its tag isn't that of its message, and then nothing is deciphered.
pub fn unseal_register(name: &RegName, keys: &RegisterKeys, sealed: &SealedReg) -> Option<u32>
    ensures exact { SomeIff result (sealed.now.tag ≡ register_tag name.now keys.now sealed.now.ct) (from_be_bytes w32 (register_masked name.now keys.now sealed.now.ct)) }
    ensures value { result ≡ unsealed_register name.now keys.now sealed.now }
{
    match RegisterSealer::new(keys).open(name, sealed) {
        Some(opening) => Some(opening.value),
        None => None,
    }
}
