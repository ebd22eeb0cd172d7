ghost use Rattle.std.specs.Prelude.{◌≡◌, option_map};
ghost use Rattle.mips_asm.specs.Passes.{AnswersPass, duplicate_line, label_said};

use crate::AsmFault;
use crate::labels::Labels;
use asm_source::{Content, Part};
use std::alloc::Global;

/// Looks for the first label that was named before. It costs time linear in the source, beside the
/// table of its names.
pub fn no_duplicate(alloc: Global, parts: &[Part]) -> Result<(), AsmFault>
    ensures { AnswersPass AsmFault.Duplicate (duplicate_line parts.now) result }
{
    let mut known = Labels::new(alloc);
    for part in parts {
        if let Some(name) = label_of(&part.content) {
            if known.insert(name, part.line)? {
                return Err(AsmFault::Duplicate(part.line));
            }
        }
    }
    Ok(())
}

/// The name, if it is a label.
pub fn label_of(content: &Content) -> Option<&[u8]>
    ensures { option_map (λ name. name.now) result ≡ label_said content.now }
{
    match content {
        Content::Label(name) => Some(name.as_slice()),
        _ => None,
    }
}
