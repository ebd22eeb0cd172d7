ghost use Rattle.std.specs.Prelude.{◌≡◌, IfOk};
ghost use Rattle.mips_asm.specs.LabelMaps.{place_in};
ghost use Rattle.mips_asm.specs.Passes.{place_of};

use crate::duplicates::label_of;
use crate::labels::Labels;
use crate::placed::Placed;
use std::alloc::Global;
use xom_base::NoMemory;

/// The places of all labels.
pub fn all_labels<'a>(alloc: Global, placed: &[Placed<'a>]) -> Result<Labels<'a>, NoMemory>
    ensures { IfOk result (λ labels. place_in labels ≡ place_of placed.now) }
{
    let mut labels = Labels::new(alloc);
    for placed in placed {
        if let Some(name) = label_of(placed.content()) {
            let _known = labels.insert(name, placed.place())?;
        }
    }
    Ok(labels)
}
