ghost use Rattle.std.specs.Prelude.{◌≡◌, ◌≤◌, ◌<◌, ◌+◌, ◌++◌, ◌∷◌, [], length};
ghost use Rattle.sha2.specs.Sha256.{sha256};
ghost use Rattle.line_ram.specs.Bytes.{HoldsRange};
ghost use Rattle.xom_journal.specs.Log.{log_with_entry};
ghost use Rattle.xom_versions.specs.Store.{area_size, hash_entry};
ghost use Rattle.replay_tree.specs.Tree.{block_text, digest_of};
ghost use Rattle.replay_tree.specs.Area.{block_in, tree_block_size as size_of_block, width};
ghost use Rattle.replay_tree.specs.Calls.{top_level};

use crate::place::{TEXT, block_at, block_size};
use keyed_mac::digest;
use line_ram::LineRam;
use xom_journal::Journal;

/// The digest of a block behind its level, which becomes an entry of the journal.
pub fn hash(text: &[u8], journal: &mut Journal) -> [u8; 32]
    requires size { length text.now ≤ 257 }
    requires room { 80 + length text.now ≤ journal.old.spare }
    ensures digest { result ≡ sha256 text.now }
    ensures entry { journal.new ≡ log_with_entry journal.old (hash_entry text.now) }
{
    let digest = digest(text);
    journal.push_hash(text, &digest);
    digest
}

/// Reads the block of this index at a level, and puts it behind its level.
pub fn read(level: u8, area: u32, index: u32, ram: &LineRam, text: &mut [u8])
    requires level { level ≤ top_level }
    requires index { index < width top_level level }
    requires area { HoldsRange ram.now area area_size }
    requires size { length text.old ≡ size_of_block level + 1 }
    ensures { text.new ≡ block_text level (block_in top_level area ram.now level index) }
{
    let _size = ram.size();
    text[0] = level;
    ram.read(block_at(level, area, index), &mut text[1..]);
}

/// Reads the block of this index at a level, and hashes it.
#[tactic(auto, using(crate::proofs::PathsKept::length_within))]
pub fn hash_block(
    level: u8,
    area: u32,
    index: u32,
    ram: &LineRam,
    journal: &mut Journal,
    buffer: &mut [u8; TEXT],
) -> [u8; 32]
    requires level { level ≤ top_level }
    requires index { index < width top_level level }
    requires area { HoldsRange ram.now area area_size }
    requires room { 81 + size_of_block level ≤ journal.old.spare }
    ensures digest { result ≡ digest_of level (block_in top_level area ram.now level index) }
    ensures entries { journal.new.entries ≡ journal.old.entries ++ hash_entry (block_text level (block_in top_level area ram.now level index)) ∷ [] }
    ensures spare { journal.old.spare ≤ journal.new.spare + (81 + size_of_block level) }
{
    let text = &mut buffer[..=block_size(level)];
    read(level, area, index, ram, text);
    hash(text, journal)
}
