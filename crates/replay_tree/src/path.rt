ghost use Rattle.std.specs.Prelude.{◌≡◌, ◌≤◌, ◌<◌, ◌+◌, ◌*◌, ◌^◌, ◌++◌, ◌∷◌, [], length, map};
ghost use Rattle.line_ram.specs.Bytes.{HoldsRange, ram_with_bytes};
ghost use Rattle.xom_versions.specs.Store.{area_size, hash_entry, line_limit};
ghost use Rattle.replay_tree.specs.Tree.{block_text, digest_of};
ghost use Rattle.replay_tree.specs.Area.{part_size as size_of_part, tree_block_size as size_of_block};
ghost use Rattle.replay_tree.specs.Calls.{top_level};
ghost use Rattle.replay_tree.specs.Paths.{block_after_raise, checked_texts, part_in, path_in, path_offset, ram_renewed, renewed_texts, torn_at, version_in_leaf, with_part};

use crate::hashing::{hash, read};
use crate::place::{TEXT, block_at, block_size, index_at, part_from, part_size};
use line_ram::LineRam;
use xom_journal::Journal;

/// Reads the block of a level on the line's path, and puts it behind its level.
#[tactic(auto, using(crate::proofs::PathsKept::index_within))]
fn read_on_path(level: u8, area: u32, line: u32, ram: &LineRam, text: &mut [u8])
    requires level { level ≤ top_level }
    requires line { line < line_limit }
    requires area { HoldsRange ram.now area area_size }
    requires size { length text.old ≡ size_of_block level + 1 }
    ensures { text.new ≡ block_text level (path_in top_level area ram.now line level) }
{
    read(level, area, index_at(level, line), ram, text);
}

/// Checks the line's blocks from a level down to the leaf, where the digest of the first is to be this
/// one: the level of the first block that isn't what the one above says, or none. Each block that is
/// looked at is hashed, and becomes an entry of the journal.
#[tactic(auto, unfolding(crate::specs::Paths::torn_at, crate::specs::Paths::checked_texts), using(crate::proofs::Levels::torn_above, crate::proofs::Levels::checked_above, crate::proofs::Levels::checked_on, crate::proofs::PathsKept::behind_level, crate::proofs::PathsKept::block_fits))]
pub fn check(
    level: u8,
    area: u32,
    line: u32,
    wanted: &[u8; 32],
    ram: &LineRam,
    journal: &mut Journal,
    buffer: &mut [u8; TEXT],
) -> Option<u8>
    requires level { level ≤ top_level }
    requires line { line < line_limit }
    requires area { HoldsRange ram.now area area_size }
    requires room { 337 * (level + 1) ≤ journal.old.spare }
    ensures torn { result ≡ torn_at (path_in top_level area ram.now line) line level wanted.now }
    ensures entries { journal.new.entries ≡ journal.old.entries ++ map hash_entry (checked_texts (path_in top_level area ram.now line) line level wanted.now) }
    ensures spare { journal.old.spare ≤ journal.new.spare + 337 * (level + 1) }
{
    let text = &mut buffer[..=block_size(level)];
    read_on_path(level, area, line, ram, text);
    if hash(text, journal) != *wanted {
        return Some(level);
    }
    if level == 0 {
        return None;
    }
    let below = digest_in(level, line, &text[1..]);
    check(level - 1, area, line, &below, ram, journal, buffer)
}

/// The digest that a block above the leaves has of the block below it on the line's path.
#[tactic(auto, using(crate::proofs::Levels::part_size_above))]
fn digest_in(level: u8, line: u32, block: &[u8]) -> [u8; 32]
    requires above { 0 < level }
    requires size { length block.now ≡ size_of_block level }
    ensures { result ≡ part_in level line block.now }
{
    let from = part_from(level, line);
    let mut digest = [0u8; 32];
    digest.copy_from_slice(&block[from..from + 32]);
    digest
}

/// Renews the line's blocks from the leaf, which gets this version, up to a level: the digest of the
/// last. Each new block is hashed, and becomes an entry of the journal.
#[tactic(auto, unfolding(crate::specs::Area::part_size, crate::specs::Paths::block_after_raise, crate::specs::Paths::renewed_texts, crate::specs::Paths::ram_renewed), using(crate::proofs::PathsKept::renewed_next, crate::proofs::Levels::part_size_above, crate::proofs::Levels::renewed_on, crate::proofs::Levels::ram_above))]
pub fn renew(
    level: u8,
    area: u32,
    line: u32,
    number: u64,
    ram: &mut LineRam,
    journal: &mut Journal,
    buffer: &mut [u8; TEXT],
) -> [u8; 32]
    requires level { level ≤ top_level }
    requires line { line < line_limit }
    requires area { HoldsRange ram.old area area_size }
    requires room { 337 * (level + 1) ≤ journal.old.spare }
    ensures digest { result ≡ digest_of level (block_after_raise (path_in top_level area ram.old line) line number level) }
    ensures ram { ram.new ≡ ram_renewed top_level area (path_in top_level area ram.old line) line number level ram.old }
    ensures size { length ram.new ≡ length ram.old }
    ensures entries { journal.new.entries ≡ journal.old.entries ++ map hash_entry (renewed_texts (path_in top_level area ram.old line) line number level) }
    ensures spare { journal.old.spare ≤ journal.new.spare + 337 * (level + 1) }
{
    if level == 0 {
        renew_block(0, area, line, &number.to_be_bytes(), ram, journal, buffer)
    } else {
        let below = renew(level - 1, area, line, number, ram, journal, buffer);
        renew_block(level, area, line, &below, ram, journal, buffer)
    }
}

/// Puts a part into the block of a level on the line's path: the new block's digest.
#[tactic(auto, using(crate::proofs::PathsKept::behind_level, crate::proofs::PathsKept::block_fits, crate::proofs::PathsKept::index_within))]
fn renew_block(
    level: u8,
    area: u32,
    line: u32,
    part: &[u8],
    ram: &mut LineRam,
    journal: &mut Journal,
    buffer: &mut [u8; TEXT],
) -> [u8; 32]
    requires level { level ≤ top_level }
    requires line { line < line_limit }
    requires area { HoldsRange ram.old area area_size }
    requires part { length part.now ≡ size_of_part level }
    requires room { 337 ≤ journal.old.spare }
    ensures digest { result ≡ digest_of level (with_part level line (path_in top_level area ram.old line level) part.now) }
    ensures ram { ram.new ≡ ram_with_bytes ram.old (area + path_offset top_level line level) (with_part level line (path_in top_level area ram.old line level) part.now) }
    ensures size { length ram.new ≡ length ram.old }
    ensures entries { journal.new.entries ≡ journal.old.entries ++ hash_entry (block_text level (with_part level line (path_in top_level area ram.old line level) part.now)) ∷ [] }
    ensures spare { journal.old.spare ≤ journal.new.spare + 337 }
{
    let _size = ram.size();
    let text = &mut buffer[..=block_size(level)];
    read_on_path(level, area, line, ram, text);
    put(level, line, part, &mut text[1..]);
    ram.write(block_at(level, area, index_at(level, line)), &text[1..]);
    hash(text, journal)
}

/// Puts a part into a block, where the line is under it.
fn put(level: u8, line: u32, part: &[u8], block: &mut [u8])
    requires block { length block.old ≡ size_of_block level }
    requires part { length part.now ≡ size_of_part level }
    ensures value { block.new ≡ with_part level line block.old part.now }
    ensures size { length block.new ≡ size_of_block level }
{
    let from = part_from(level, line);
    block[from..from + part_size(level)].copy_from_slice(part);
}

/// The line's version, in the leaf.
#[tactic(auto, unfolding(crate::specs::Area::part_size), using(crate::proofs::PathsKept::index_within))]
pub fn number_at(area: u32, line: u32, ram: &LineRam) -> u64
    requires line { line < line_limit }
    requires area { HoldsRange ram.now area area_size }
    ensures { result ≡ version_in_leaf (path_in top_level area ram.now line) line }
{
    let _size = ram.size();
    let mut leaf = [0u8; 64];
    ram.read(block_at(0, area, index_at(0, line)), &mut leaf);
    let from = part_from(0, line);
    let mut number = [0u8; 8];
    number.copy_from_slice(&leaf[from..from + 8]);
    u64::from_be_bytes(number)
}
