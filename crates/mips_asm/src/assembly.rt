ghost use Rattle.xom_base.specs.declared.image.PlainImage.{PlainImage};
ghost use Rattle.xom_base.specs.Memory.{OrOut};
ghost use Rattle.std.specs.Prelude.{Err, IfErr, IfOk, Ok, All, MatchResult};
ghost use Rattle.mips_asm.specs.Layout.{IsInsideImage, IsSized};
ghost use Rattle.mips_asm.specs.Sources.{IsFaultOf, IsImageOf, IsPlacedFault, IsPlacedImage, OrNoMemory};

use crate::AsmFault;
use crate::duplicates::no_duplicate;
use crate::entry::{entry, last_entry};
use crate::layout::layout;
use crate::naming::all_labels;
use crate::overlap::no_overlap;
use crate::placed::Placed;
use crate::ranges::written;
use crate::unknown::no_unknown;
use asm_syntax::read_source;
use std::alloc::Global;
use text_lines::TextFault;
use xom_base::PlainImage;

/// Assembles a source: the image that it stands for, or the fault of the first kind that occurs in it.
/// It costs time linear in the text and the image, beside the table of the labels.
pub fn assemble(alloc: Global, text: &[u8]) -> Result<PlainImage, AsmFault>
    // What is answered is the image of the source.
    ensures found { IfOk result (IsImageOf text.now) }
    // A source that has an image is answered by it, unless memory runs out.
    ensures only { (image : PlainImage) → IsImageOf text.now image → OrOut AsmFault.NoMemory (Ok image) result }
    // What is answered else is its fault, the least line of the first kind that occurs, or want of memory.
    ensures fault { IfErr result (OrNoMemory (IsFaultOf text.now)) }
    // A source that has a fault is answered by it, unless memory runs out.
    ensures only_fault { (fault : AsmFault) → IsFaultOf text.now fault → OrOut AsmFault.NoMemory (Err fault) result }
{
    assembled(alloc, text)
}

fn assembled(alloc: Global, text: &[u8]) -> Result<PlainImage, AsmFault>
    ensures { MatchResult result (IsImageOf text.now) (OrNoMemory (IsFaultOf text.now)) }
{
    let parts = match read_source(alloc, text) {
        Ok(parts) => parts,
        Err(TextFault::Line(line)) => return Err(AsmFault::Syntax(line)),
        Err(TextFault::NoMemory) => return Err(AsmFault::NoMemory),
    };
    no_duplicate(alloc, parts.as_slice())?;
    let placed = layout(alloc, parts.as_slice())?;
    image_of(alloc, placed.as_slice())
}

/// The image of labels and statements that are laid out.
#[tactic(auto, using(crate::proofs::WrittenLaws::placed_image))]
fn image_of(alloc: Global, placed: &[Placed]) -> Result<PlainImage, AsmFault>
    requires inside { All IsInsideImage placed.now }
    requires sized { All IsSized placed.now }
    ensures { MatchResult result (IsPlacedImage placed.now) (OrNoMemory (IsPlacedFault placed.now)) }
{
    no_overlap(alloc, placed)?;
    let labels = all_labels(alloc, placed)?;
    no_unknown(&labels, placed)?;
    let entry = entry(&labels, last_entry(placed));
    let bytes = written(alloc, &labels, entry.err(), placed)?;
    let entry = entry.map_err(AsmFault::Range)?;
    Ok(PlainImage { entry, bytes })
}
