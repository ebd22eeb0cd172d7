ghost use Rattle.std.specs.Prelude.{◌≡◌, ◌<◌, ◌≤◌, ◌&&◌, ◌||◌, ℕ, true, false, nat_le, nat_lt, All, IfOk, length, slice_index_or};
ghost use Rattle.std.specs.Bool.{OnTrue, OnFalse};
ghost use Rattle.mips_asm.specs.Layout.{IsInsideImage, last_end as last_end_of, limit};
ghost use Rattle.mips_asm.specs.Passes.{AnswersPass, overlap_line};

use crate::AsmFault;
use crate::placed::Placed;
use std::alloc::Global;
use xom_base::NoMemory;

/// Looks for the first statement that writes where an earlier one did. It costs time linear in the
/// number of statements and of bytes, and a byte of memory for each byte of the image.
pub fn no_overlap(alloc: Global, placed: &[Placed]) -> Result<(), AsmFault>
    requires { All IsInsideImage placed.now }
    ensures { AnswersPass AsmFault.Overlap (overlap_line placed.now) result }
{
    let mut written = unwritten(alloc, last_end(placed))?;
    match first_overlap(&mut written, placed) {
        Some(line) => Err(AsmFault::Overlap(line)),
        None => Ok(()),
    }
}

/// The line of the first statement that writes where an earlier one did. It lets the places that are
/// written be so.
fn first_overlap(written: &mut [bool], placed: &[Placed]) -> Option<u64>
    requires inside { All IsInsideImage placed.now }
    requires whole { length written.old ≡ last_end_of placed.now }
    requires clear { (k : ℕ) → slice_index_or written.old k false ≡ false }
    ensures { result ≡ overlap_line placed.now }
{
    for placed in placed {
        if placed.size() > 0 {
            let start = placed.place() as usize;
            let end = start + placed.size() as usize;
            if any_written(written, start, end) {
                return Some(placed.line());
            }
            mark(written, start, end);
        }
    }
    None
}

/// The place behind the last byte that is written.
#[tactic(auto, using(crate::proofs::LayoutLaws::last_end_more, crate::proofs::LayoutLaws::last_end_none))]
pub fn last_end(placed: &[Placed]) -> usize
    requires { All IsInsideImage placed.now }
    ensures value { result ≡ last_end_of placed.now }
    ensures inside { result ≤ limit }
{
    let mut end: usize = 0;
    for placed in placed {
        if placed.size() > 0 {
            end = end.max((placed.place() + placed.size()) as usize);
        }
    }
    end
}

/// So many places, of which none is written.
fn unwritten(alloc: Global, count: usize) -> Result<Vec<bool>, NoMemory>
    ensures { IfOk result (λ written. (length written.items ≡ count) × ((k : ℕ) → slice_index_or written.items k false ≡ false)) }
{
    Ok(vec![in alloc; false; count]?)
}

/// Whether a place from `start` on and before `end` is written.
fn any_written(written: &[bool], start: usize, end: usize) -> bool
    requires order { start ≤ end }
    requires within { end ≤ length written.now }
    ensures some { OnTrue result ((k : ℕ) × (start ≤ k) × (k < end) × (slice_index_or written.now k false ≡ true)) }
    ensures none { OnFalse result ((k : ℕ) → start ≤ k → k < end → slice_index_or written.now k false ≡ false) }
{
    for k in start..end {
        if written[k] {
            return true;
        }
    }
    false
}

/// Lets the places from `start` on and before `end` be written.
fn mark(written: &mut [bool], start: usize, end: usize)
    requires order { start ≤ end }
    requires within { end ≤ length written.old }
    ensures { (k : ℕ) → slice_index_or written.new k false ≡ ((nat_le start k && nat_lt k end) || slice_index_or written.old k false) }
{
    for k in start..end {
        written[k] = true;
    }
}
