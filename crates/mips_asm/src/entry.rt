ghost use Rattle.std.specs.Prelude.{◌≡◌, ◌<◌, ◌%◌, ◌^◌, Some, None, IfOk, IfSome, MatchResult, option_map};
ghost use Rattle.mips_asm.specs.LabelMaps.{place_in};
ghost use Rattle.mips_asm.specs.Sources.{bad_entry, entry_by, entry_content, entry_value, last_entry as last_entry_of};

use crate::fields::{number_of, unsigned_below};
use crate::labels::Labels;
use crate::placed::Placed;
use asm_source::Content;

/// The last `.entry`, if there is one.
pub fn last_entry<'a, 'b>(placed: &'b [Placed<'a>]) -> Option<&'b Placed<'a>>
    ensures { option_map (λ placed. placed.now) result ≡ last_entry_of placed.now }
{
    placed
        .iter()
        .rev()
        .find(|placed| is_entry(placed.content()))
}

fn is_entry(content: &Content) -> bool
    ensures { result ≡ entry_content content.now }
{
    matches!(content, Content::Entry(_))
}

/// The entry by the last `.entry`, 0 where there is none. The error is its line, where what it says is
/// no multiple of 4 below 2^20.
pub fn entry(labels: &Labels, last: Option<&Placed>) -> Result<u32, u64>
    ensures value { IfOk result (λ entry. entry_by (place_in labels.now) (option_map (λ placed. placed.now) last.entry) ≡ Some entry) }
    ensures aligned { IfOk result (λ entry. entry % 4 ≡ 0) }
    ensures private { IfOk result (λ entry. entry < 2 ^ 20) }
    ensures bad { MatchResult result (λ entry. bad_entry (place_in labels.now) (option_map (λ placed. placed.now) last.entry) ≡ None) (λ line. bad_entry (place_in labels.now) (option_map (λ placed. placed.now) last.entry) ≡ Some line) }
{
    match last {
        None => Ok(0),
        Some(placed) => entry_in(labels, placed.content()).ok_or(placed.line()),
    }
}

/// The entry that a statement says.
fn entry_in(labels: &Labels, content: &Content) -> Option<u32>
    ensures value { result ≡ entry_value (place_in labels.now) content.now }
    ensures aligned { IfSome result (λ entry. entry % 4 ≡ 0) }
    ensures private { IfSome result (λ entry. entry < 2 ^ 20) }
{
    let Content::Entry(value) = content else {
        return None;
    };
    let number = number_of(labels, value)?;
    let address = unsigned_below(0xf_ffff, number)?;
    (address % 4 == 0).then_some(address as u32)
}
