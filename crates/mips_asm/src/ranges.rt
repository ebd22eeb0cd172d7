ghost use Rattle.std.specs.Prelude.{◌≡◌, ◌+◌, ◌<◌, ◌≤◌, ◌⊎◌, ℕ, Some, All, IfOk, IfErr, OnOk, length, slice_index};
ghost use Rattle.mips_asm.specs.LabelMaps.{place_in};
ghost use Rattle.mips_asm.specs.Layout.{IsInsideImage, IsSized, last_end as last_end_of, limit};
ghost use Rattle.mips_asm.specs.Passes.{statement_line};
ghost use Rattle.mips_asm.specs.Sources.{HasBytes, IsFirst, IsOutOfRange, StandsOver, WritesOne};

use crate::AsmFault;
use crate::data::add_bytes;
use crate::image::{write, zeros};
use crate::labels::Labels;
use crate::overlap::last_end;
use crate::placed::Placed;
use mips_forms::Operand;
use std::alloc::Global;
use xom_base::{ByteList, NoMemory};

/// What the statements write, each at its place, and zeros elsewhere. The fault is the first line with
/// a value out of its range, or with a last `.entry` that is bad, which is handed in.
#[tactic(auto, using(crate::proofs::WrittenLaws::has_bytes))]
pub fn written(
    alloc: Global,
    labels: &Labels,
    bad_entry: Option<u64>,
    placed: &[Placed],
) -> Result<ByteList, AsmFault>
    requires inside { All IsInsideImage placed.now }
    requires sized { All IsSized placed.now }
    ensures found { IfOk result (HasBytes (place_in labels.now) placed.now) }
    ensures small { IfOk result (λ bytes. length bytes ≤ limit) }
    ensures entry { IfOk result (λ bytes. All (λ p. ¬ (bad_entry ≡ Some (statement_line p))) placed.now) }
    ensures fault { IfErr result (λ fault. (fault ≡ AsmFault.NoMemory) ⊎ ((n : ℕ) × (fault ≡ AsmFault.Range n) × IsFirst statement_line (IsOutOfRange (place_in labels.now) bad_entry) placed.now n)) }
{
    let mut image = zeros(alloc, last_end(placed))?;
    write_all(alloc, labels, bad_entry, placed, &mut image)?;
    Ok(ByteList::from_vec(image))
}

/// Writes the bytes of all statements over zeros.
fn write_all(
    alloc: Global,
    labels: &Labels,
    bad_entry: Option<u64>,
    placed: &[Placed],
    image: &mut [u8],
) -> Result<(), AsmFault>
    requires inside { All IsInsideImage placed.now }
    requires sized { All IsSized placed.now }
    requires whole { length image.old ≡ last_end_of placed.now }
    requires clear { (k : ℕ) → slice_index image.old k ≡ 0 }
    ensures found { OnOk result (StandsOver (place_in labels.now) placed.now image.new) }
    ensures entry { OnOk result (All (λ p. ¬ (bad_entry ≡ Some (statement_line p))) placed.now) }
    ensures fault { IfErr result (λ fault. (fault ≡ AsmFault.NoMemory) ⊎ ((n : ℕ) × (fault ≡ AsmFault.Range n) × IsFirst statement_line (IsOutOfRange (place_in labels.now) bad_entry) placed.now n)) }
{
    let mut operands = Vec::new(alloc);
    let mut bytes = Vec::new(alloc);
    for placed in placed {
        let line = placed.line();
        if bad_entry == Some(line) {
            return Err(AsmFault::Range(line));
        }
        let written = write_one(alloc, labels, placed, &mut operands, &mut bytes, image)?;
        if !written {
            return Err(AsmFault::Range(line));
        }
    }
    Ok(())
}

/// Writes the bytes of a statement at its place, or answers false where a value of it is out of its
/// range. The operands and the bytes are room that is used again for each statement.
fn write_one(
    alloc: Global,
    labels: &Labels,
    placed: &Placed,
    operands: &mut Vec<Operand>,
    bytes: &mut Vec<u8>,
    image: &mut [u8],
) -> Result<bool, NoMemory>
    requires inside { IsInsideImage placed.now }
    requires sized { IsSized placed.now }
    requires room { 0 < placed.now.size → placed.now.place + placed.now.size ≤ length image.old }
    ensures { IfOk result (λ written. WritesOne (place_in labels.now) placed.now image.old written image.new) }
{
    bytes.clear();
    let written = add_bytes(
        alloc,
        labels,
        placed.place(),
        placed.content(),
        operands,
        bytes,
    )?;
    if !written {
        return Ok(false);
    }
    write(image, placed.place() as usize, bytes.as_slice());
    Ok(true)
}
