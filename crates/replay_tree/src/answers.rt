ghost use Rattle.std.specs.Prelude.{◌≡◌, ◌≤◌, ◌<◌, ◌+◌, ◌++◌, map};
ghost use Rattle.line_ram.specs.Bytes.{HoldsRange};
ghost use Rattle.xom_versions.specs.Store.{area_size, hash_entry, line_limit, raise_room, version_room};
ghost use Rattle.replay_tree.specs.Calls.{new_ram, new_root, new_texts, raised_in, top_level, torn_in, torn_or, version_at_line as version_of, version_texts};

use crate::path::{check, number_at, renew};
use crate::place::{TEXT, TOP};
use line_ram::LineRam;
use xom_journal::Journal;
use xom_versions::Torn;

/// The version of a line in the tree of this area, which is checked from this root down.
pub fn version_in(
    area: u32,
    root: &[u8; 32],
    line: u32,
    ram: &LineRam,
    journal: &mut Journal,
) -> Result<u64, Torn>
    requires area { HoldsRange ram.now area area_size }
    requires line { line < line_limit }
    requires room { version_room ≤ journal.old.spare }
    ensures answer { result ≡ torn_or (torn_in top_level root.now area line ram.now) (version_of top_level area line ram.now) }
    ensures entries { journal.new.entries ≡ journal.old.entries ++ map hash_entry (version_texts top_level root.now area line ram.now) }
    ensures spare { journal.old.spare ≤ journal.new.spare + version_room }
{
    let mut buffer = [0; TEXT];
    match check(TOP, area, line, root, ram, journal, &mut buffer) {
        Some(level) => Err(Torn { level }),
        None => Ok(number_at(area, line, ram)),
    }
}

/// Raises the version of a line in the tree of this area, which is checked from this root down. The
/// root is then that of the new tree.
pub fn raise_in(
    area: u32,
    root: &mut [u8; 32],
    line: u32,
    ram: &mut LineRam,
    journal: &mut Journal,
) -> Result<u64, Torn>
    requires area { HoldsRange ram.old area area_size }
    requires line { line < line_limit }
    requires room { raise_room ≤ journal.old.spare }
    ensures answer { result ≡ torn_or (torn_in top_level root.old area line ram.old) (raised_in top_level area line ram.old) }
    ensures root { root.new ≡ new_root top_level (torn_in top_level root.old area line ram.old) root.old area line ram.old }
    ensures ram { ram.new ≡ new_ram top_level (torn_in top_level root.old area line ram.old) area line ram.old }
    ensures entries { journal.new.entries ≡ journal.old.entries ++ map hash_entry (version_texts top_level root.old area line ram.old ++ new_texts top_level (torn_in top_level root.old area line ram.old) area line ram.old) }
    ensures spare { journal.old.spare ≤ journal.new.spare + raise_room }
{
    let mut buffer = [0; TEXT];
    if let Some(level) = check(TOP, area, line, root, ram, journal, &mut buffer) {
        return Err(Torn { level });
    }
    let number = number_at(area, line, ram).wrapping_add(1);
    *root = renew(TOP, area, line, number, ram, journal, &mut buffer);
    Ok(number)
}
