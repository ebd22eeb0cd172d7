ghost use Rattle.std.specs.Prelude.{◌≡◌, SomeIff};
ghost use Rattle.xom_seal.specs.Sealing.{line_masked, line_tag, sealed_line, unsealed_line};

use crate::{LineKeys, LineName, LineSealer};
use xom_base::Short;

/// A line as it stands off the chip.
#[derive(Clone, Copy, Debug, PartialEq, Eq)]
pub struct SealedLine {
    /// The ciphertext.
    pub ct: [u8; 32],
    /// The tag of the line's message.
    pub tag: [u8; 32],
}

/// A line that was sealed.
#[derive(Clone, Copy)]
pub struct LineSealing {
    /// The line as it stands off the chip.
    pub sealed: SealedLine,
    /// The message that was tagged.
    pub message: Short,
}

/// A sealed line that was opened.
#[derive(Clone, Copy)]
pub struct LineOpening {
    /// The line's plain bytes.
    pub plain: [u8; 32],
    /// The message whose tag it has.
    pub message: Short,
}

/// The sealing of a line's plain bytes, under keys that are made ready for this one line.
pub fn seal_line(name: &LineName, keys: &LineKeys, plain: &[u8; 32]) -> SealedLine
    ensures { result ≡ sealed_line name.now keys.now plain.now }
{
    LineSealer::new(keys).seal(name, plain).sealed
}

/// The plain bytes of a sealed line, under keys that are made ready for this one line. None exactly
/// where its tag isn't that of its message, and then nothing is deciphered.
pub fn unseal_line(name: &LineName, keys: &LineKeys, sealed: &SealedLine) -> Option<[u8; 32]>
    ensures exact { SomeIff result (sealed.now.tag ≡ line_tag name.now keys.now sealed.now.ct) (line_masked name.now keys.now sealed.now.ct) }
    ensures value { result ≡ unsealed_line name.now keys.now sealed.now }
{
    match LineSealer::new(keys).open(name, sealed) {
        Some(opening) => Some(opening.plain),
        None => None,
    }
}
