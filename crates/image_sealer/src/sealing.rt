ghost use Rattle.std.specs.Prelude.{◌≡◌, ◌≤◌, ◌<◌, ◌^◌, IfOk, length};
ghost use Rattle.xom_seal.specs.Laws.{IsUnwrapped};
ghost use Rattle.image_sealer.specs.Sealing.{IsSealedFor, contents_for_owner as contents_for, line_count as line_count_of, line_of_image, sealed_lines_of};

use std::alloc::Global;
use xom_base::{ImageId, Key256, NoMemory};
use xom_owners::Owner;
use xom_seal::{LineName, LineSealer, SealedImage, SealedLineList, Unwrapped, image_keys, wrap};

/// How many bytes a line has.
const LINE: usize = 32;

/// The owner's image as only this machine can open it. Costs time in proportion to the image's
/// length.
#[tactic(auto, unfolding(crate::specs::Sealing::envelope_of))]
pub fn seal(alloc: Global, owner: &Owner, machine: &Key256) -> Result<SealedImage, NoMemory>
    ensures { IfOk result (IsSealedFor machine.now owner.now) }
{
    let lines = sealed_lines(alloc, owner)?;
    Ok(SealedImage {
        envelope: wrap(machine, &contents(owner)),
        lines,
    })
}

/// What the envelope says of the owner's image.
pub fn contents(owner: &Owner) -> Unwrapped
    ensures value { result ≡ contents_for owner.now }
    ensures ranges { IsUnwrapped result }
{
    let lines = line_count(owner.plain.bytes.as_slice());
    contents_of(&owner.id.0, owner.plain.entry, lines, &owner.key.0)
}

/// What an envelope with these fields says.
fn contents_of(id: &[u8; 16], entry: u32, lines: u32, key: &[u8; 32]) -> Unwrapped
    ensures value { result ≡ record { id = record { 0 = id.now }; entry = entry; lines = lines; key = record { 0 = key.now } } }
    ensures ranges { IsUnwrapped result }
{
    Unwrapped {
        id: ImageId(*id),
        entry,
        lines,
        key: Key256(*key),
    }
}

/// All lines, sealed.
#[tactic(auto, using(crate::proofs::Opening::sealed_lines_more))]
fn sealed_lines(alloc: Global, owner: &Owner) -> Result<SealedLineList, NoMemory>
    ensures { IfOk result (λ lines. lines ≡ sealed_lines_of owner.now) }
{
    let bytes = owner.plain.bytes.as_slice();
    let sealer = LineSealer::new(&image_keys(&owner.key, &owner.id));
    let count = line_count(bytes);
    let mut lines = Vec::with_capacity(alloc, count as usize)?;
    for line in 0..count {
        let name = LineName::Image { id: owner.id, line };
        lines.push(sealer.seal(&name, &plain_line(bytes, line)).sealed)?;
    }
    Ok(SealedLineList::from_vec(lines))
}

/// How many lines these bytes have.
pub fn line_count(bytes: &[u8]) -> u32
    requires { length bytes.now ≤ 2 ^ 20 }
    ensures { result ≡ line_count_of bytes.now }
{
    ((bytes.len() + LINE - 1) / LINE) as u32
}

/// A line of these bytes. The last is filled up with zeros.
pub fn plain_line(bytes: &[u8], line: u32) -> [u8; LINE]
    requires { line < line_count_of bytes.now }
    ensures { result ≡ line_of_image bytes.now line }
{
    let rest = &bytes[LINE * line as usize..];
    let length = rest.len().min(LINE);
    let mut plain = [0; LINE];
    plain[..length].copy_from_slice(&rest[..length]);
    plain
}
