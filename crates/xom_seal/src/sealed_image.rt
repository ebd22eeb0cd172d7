ghost use Rattle.std.specs.Prelude.{◌≡◌, ◌≤◌, ◌<◌, ◌%◌, ◌^◌, ℕ, Some, length, slice_get};
ghost use Rattle.xom_seal.specs.declared.line.SealedLine.{SealedLine};
ghost use Rattle.xom_seal.specs.Envelopes.{entry_of_envelope, lines_in};

use crate::line::SealedLine;
use xom_base::List;

/// A growing list of sealed lines.
pub type SealedLineList = List<SealedLine>;

/// A program as its owner sealed it for one machine. Neither the envelope's tag nor a line's is
/// known to be right.
#[derive(Drop)]
pub struct SealedImage {
    /// What the machine must know of the image: id (16 bytes), entry (4), number of lines (4),
    /// wrapped key (32), tag (32). The entry is a multiple of 4 below 1,048,576.
    pub envelope: [u8; 88],
    /// Its lines from address 0 on, as many as the envelope says, and at most 32,768.
    pub lines: SealedLineList,
    pub ghost sized: { length envelope ≡ 88 },
    pub ghost aligned: { entry_of_envelope envelope % 4 ≡ 0 },
    pub ghost private: { entry_of_envelope envelope < 2 ^ 20 },
    pub ghost counted: { lines_in envelope ≡ length lines },
    pub ghost fits: { length lines ≤ 2 ^ 15 },
    pub ghost whole: { (i : ℕ) (line : SealedLine) → slice_get lines i ≡ Some line → (length line.ct ≡ 32) × (length line.tag ≡ 32) },
}
