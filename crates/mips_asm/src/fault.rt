ghost use Rattle.std.specs.Prelude.{◌≡◌};
ghost use Rattle.mips_asm.specs.declared.fault.AsmFault.TheVariants as fault;

use std::alloc::{AllocError, AllocFailed};
use thiserror::Error;

/// Why a source gives no image. Kinds are looked for over the whole text, in the order of the variants,
/// and each says the first line of its kind, counted from 1.
#[derive(Clone, Copy, Debug, PartialEq, Eq, Error)]
pub enum AsmFault {
    /// A token, mnemonic, operand form or number is off the grammar.
    #[error("line {0}: Syntax")]
    Syntax(u64),
    /// A label was named before.
    #[error("line {0}: Duplicate")]
    Duplicate(u64),
    /// A byte lies past the 1,048,576 bytes of an image.
    #[error("line {0}: TooLong")]
    TooLong(u64),
    /// A place was written before.
    #[error("line {0}: Overlap")]
    Overlap(u64),
    /// A name is that of no label.
    #[error("line {0}: UnknownName")]
    UnknownName(u64),
    /// A value is out of its range, or an instruction or a word isn't at a multiple of 4.
    #[error("line {0}: Range")]
    Range(u64),
    /// Want of memory.
    #[error("out of memory")]
    NoMemory,
}

impl From<AllocError> for AsmFault {
    ghost from_gives = { λ _ e. e ≡ fault.NoMemory };

    fn from(_: AllocError) -> AsmFault {
        AsmFault::NoMemory
    }
}

impl<T: Drop> From<AllocFailed<T>> for AsmFault {
    ghost from_gives = { λ _ e. e ≡ fault.NoMemory };

    fn from(_: AllocFailed<T>) -> AsmFault {
        AsmFault::NoMemory
    }
}

impl From<xom_base::NoMemory> for AsmFault {
    ghost from_gives = { λ _ e. e ≡ fault.NoMemory };

    fn from(_: xom_base::NoMemory) -> AsmFault {
        AsmFault::NoMemory
    }
}
