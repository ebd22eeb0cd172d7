ghost use Rattle.std.specs.Prelude.{◌≡◌, ◌++◌, OnErr, OnOk};
ghost use Rattle.step_text.specs.StepTexts.{low_hex};
ghost use Rattle.text_pieces.specs.Pieces.{Begins};

use text_pieces::{hex8, push_bytes};
use xom_base::NoMemory;

/// Adds the low bytes of a number, so many of them, as two hexadecimal digits each.
#[tactic(auto, using(crate::proofs::Texts::digits_behind))]
pub fn push_low(text: &mut Vec<u8>, count: u8, value: u32) -> Result<(), NoMemory>
    ensures ok { OnOk result (text.new.items ≡ text.old.items ++ low_hex count value) }
    ensures err { OnErr result (Begins text.old.items text.new.items) }
{
    let passed = 4usize.saturating_sub(usize::from(count));
    let digits = hex8(value);
    let (_, low) = digits.as_slice().split_at(2 * passed);
    push_bytes(text, low)
}
