ghost use Rattle.std.specs.Prelude.{◌≡◌, ◌≤◌, ◌<◌, ◌+◌, ◌*◌, ◌++◌, length, map};
ghost use Rattle.line_ram.specs.Bytes.{HoldsRange, ram_with_bytes};
ghost use Rattle.xom_versions.specs.Store.{area_size, build_room, hash_entry, line_limit};
ghost use Rattle.xom_versions.specs.Versions.{start_version};
ghost use Rattle.replay_tree.specs.Tree.{node, parts_joined, root_of};
ghost use Rattle.replay_tree.specs.Area.{area_bytes, level_bytes, level_offset as offset_of_level, texts_below, texts_up_to, tree_block_size as size_of_block, width as width_of};
ghost use Rattle.replay_tree.specs.Build.{digests_in, room_below, texts_in};
ghost use Rattle.replay_tree.specs.Calls.{top_level};

use crate::hashing::hash_block;
use crate::place::{TEXT, TOP, digest_at, width};
use line_ram::LineRam;
use xom_journal::Journal;

/// Builds the tree of a new guest, whose image has so many lines, in an area: its root. Each block is
/// written and hashed once.
#[tactic(auto, using(crate::proofs::Built::built_root, crate::proofs::Built::built_texts, crate::proofs::Built::room_of_all))]
pub fn build_in(area: u32, lines: u32, ram: &mut LineRam, journal: &mut Journal) -> [u8; 32]
    requires area { HoldsRange ram.old area area_size }
    requires lines { lines ≤ line_limit }
    requires room { build_room ≤ journal.old.spare }
    ensures root { result ≡ root_of top_level (start_version lines) }
    ensures ram { ram.new ≡ ram_with_bytes ram.old area (area_bytes top_level (start_version lines)) }
    ensures entries { journal.new.entries ≡ journal.old.entries ++ map hash_entry (texts_up_to top_level (start_version lines) top_level) }
    ensures spare { journal.old.spare ≤ journal.new.spare + build_room }
{
    let mut buffer = [0; TEXT];
    fill_up_to(TOP, area, lines, ram, journal, &mut buffer);
    hash_block(TOP, area, 0, ram, journal, &mut buffer)
}

/// Writes the blocks of the levels up to this one, and hashes those below it.
#[tactic(auto, unfolding(crate::specs::Build::room_below), using(crate::proofs::Built::leaves_written, crate::proofs::Built::filled_more, crate::proofs::Built::texts_more, crate::proofs::Built::room_above))]
fn fill_up_to(
    level: u8,
    area: u32,
    lines: u32,
    ram: &mut LineRam,
    journal: &mut Journal,
    buffer: &mut [u8; TEXT],
)
    requires level { level ≤ top_level }
    requires area { HoldsRange ram.old area area_size }
    requires lines { lines ≤ line_limit }
    requires room { room_below level ≤ journal.old.spare }
    ensures ram { ram.new ≡ ram_with_bytes ram.old area (parts_joined (level_bytes top_level (start_version lines)) (level + 1)) }
    ensures size { length ram.new ≡ length ram.old }
    ensures entries { journal.new.entries ≡ journal.old.entries ++ map hash_entry (texts_below top_level (start_version lines) level) }
    ensures spare { journal.old.spare ≤ journal.new.spare + room_below level }
{
    if level == 0 {
        write_leaves(area, lines, ram);
    } else {
        fill_up_to(level - 1, area, lines, ram, journal, buffer);
        hash_level(level - 1, area, ram, journal, buffer);
    }
}

/// Hashes each block of a level below the top, and puts the digests where the next level begins.
#[tactic(auto, using(crate::proofs::Built::room_left))]
fn hash_level(
    level: u8,
    area: u32,
    ram: &mut LineRam,
    journal: &mut Journal,
    buffer: &mut [u8; TEXT],
)
    requires level { level < top_level }
    requires area { HoldsRange ram.old area area_size }
    requires room { (81 + size_of_block level) * width_of top_level level ≤ journal.old.spare }
    ensures ram { ram.new ≡ ram_with_bytes ram.old (area + offset_of_level top_level (level + 1)) (digests_in area ram.old level (width_of top_level level)) }
    ensures size { length ram.new ≡ length ram.old }
    ensures entries { journal.new.entries ≡ journal.old.entries ++ map hash_entry (texts_in area ram.old level (width_of top_level level)) }
    ensures spare { journal.old.spare ≤ journal.new.spare + (81 + size_of_block level) * width_of top_level level }
{
    let _size = ram.size();
    for index in 0..width(level) {
        let digest = hash_block(level, area, index, ram, journal, buffer);
        ram.write(digest_at(level, area, index), &digest);
    }
}

/// Writes the leaves of the start versions: 1 for the image's lines, 0 for all others.
#[tactic(auto, using(crate::proofs::Built::leaves_none, crate::proofs::Built::leaves_more))]
fn write_leaves(area: u32, lines: u32, ram: &mut LineRam)
    requires area { HoldsRange ram.old area area_size }
    ensures ram { ram.new ≡ ram_with_bytes ram.old area (level_bytes top_level (start_version lines) 0) }
    ensures size { length ram.new ≡ length ram.old }
{
    let _size = ram.size();
    for index in 0..4096u32 {
        ram.write(area + 64 * index, &leaf(lines, index));
    }
}

/// The leaf of this index, of eight start versions.
fn leaf(lines: u32, index: u32) -> [u8; 64]
    requires { index < width_of top_level 0 }
    ensures { result ≡ node (start_version lines) 0 index }
{
    let mut leaf = [0u8; 64];
    for k in 0..8u32 {
        let from = 8 * k as usize;
        leaf[from..from + 8].copy_from_slice(&first_version(lines, 8 * index + k).to_be_bytes());
    }
    leaf
}

/// The version that a line begins with.
fn first_version(lines: u32, line: u32) -> u64
    ensures { result ≡ start_version lines line }
{
    if line < lines { 1 } else { 0 }
}
