ghost use Rattle.std.specs.Prelude.{◌≡◌, ◌+◌, ◌-◌, ◌^◌, ◌<◌, ◌≤◌, ◌&&◌, nat_lt, All, IfOk, min};
ghost use Rattle.mips_asm.specs.Layout.{IsInsideImage, IsSized, in_range, layout as layout_of, limit, padding, place_after, statement_size, takes_one_word};
ghost use Rattle.mips_asm.specs.Passes.{AnswersPass, too_long_line};

use crate::AsmFault;
use crate::placed::Placed;
use asm_source::{Content, Part};
use asm_tokens::Integer;
use std::alloc::Global;

/// How many bytes an image may have.
pub const LIMIT: u64 = 1 << 20;

/// Gives each label and statement its place. It costs time linear in their number.
pub fn layout<'a>(alloc: Global, parts: &'a [Part]) -> Result<Vec<Placed<'a>>, AsmFault>
    ensures placed { IfOk result (λ placed. placed.items ≡ layout_of 0 parts.now) }
    ensures inside { IfOk result (λ placed. All IsInsideImage placed.items) }
    ensures sized { IfOk result (λ placed. All IsSized placed.items) }
    ensures fault { AnswersPass AsmFault.TooLong (too_long_line (layout_of 0 parts.now)) result }
{
    let mut placed = Vec::with_capacity(alloc, parts.len())?;
    let mut place = 0;
    for part in parts {
        let size = size(place, &part.content);
        if is_past(place, size) {
            return Err(AsmFault::TooLong(part.line));
        }
        let next = after(place, size, &part.content);
        placed.push(Placed::new(place, size, part))?;
        place = next;
    }
    Ok(placed)
}

/// Whether so many bytes from a place on go past the limit.
fn is_past(place: u64, size: u64) -> bool
    ensures { result ≡ nat_lt 0 size && nat_lt limit (place + size) }
{
    size > 0 && (place > LIMIT || size > LIMIT - place)
}

/// The next place, behind what stands at a place and has this size.
#[tactic(auto, unfolding(crate::specs::Layout::place_after))]
fn after(place: u64, size: u64, content: &Content) -> u64
    requires size { size ≡ statement_size place content.now }
    requires inside { 0 < size → place + size ≤ limit }
    ensures { result ≡ place_after place content.now }
{
    match content {
        Content::Org(next) => *next,
        _ => place + size,
    }
}

/// How many bytes a label or a statement writes at a place, or the largest number below that.
#[tactic(auto, unfolding(crate::specs::Layout::statement_size))]
fn size(place: u64, content: &Content) -> u64
    ensures { result ≡ min (statement_size place content.now) (2 ^ 64 - 1) }
{
    match content {
        Content::Words(values) => (values.len() as u64).saturating_mul(4),
        Content::Bytes(numbers) => numbers.len() as u64,
        Content::Ascii(bytes) => bytes.len() as u64,
        Content::Space(count) => *count,
        Content::Align(power) => padding(*power, place),
        Content::LoadNumber(_, number) if takes_one_word(*number) => 4,
        Content::LoadNumber(..) | Content::LoadAddress(..) => 8,
        Content::Instruction(..) => 4,
        Content::Label(_) | Content::Org(_) | Content::Entry(_) => 0,
    }
}

/// How many bytes lead to the next multiple of 2^power, where the power is in its range.
pub fn padding(power: u64, place: u64) -> u64
    ensures { result ≡ padding power place }
{
    if power > 12 {
        return 0;
    }
    let step = 1 << power;
    (step - place % step) % step
}

/// Whether a number is from -low to high.
pub fn in_range(low: u64, high: u64, number: Integer) -> bool
    ensures { result ≡ in_range low high number }
{
    if number.negative {
        number.magnitude <= low
    } else {
        number.magnitude <= high
    }
}

/// Whether `li` makes one instruction of a number.
fn takes_one_word(number: Integer) -> bool
    ensures { result ≡ takes_one_word number }
{
    in_range(0x8000, 0xffff, number)
}
