ghost use Rattle.std.specs.Prelude.{◌≡◌, ◌≤◌, ◌<◌, ◌+◌, ◌*◌, ◌^◌};
ghost use Rattle.xom_versions.specs.Store.{area_size};
ghost use Rattle.replay_tree.specs.Area.{block_offset, level_offset as offset_of_level, part_size as size_of_part, tree_block_size as size_of_block, width as width_of};
ghost use Rattle.replay_tree.specs.Calls.{top_level};
ghost use Rattle.replay_tree.specs.Paths.{index_at as index_of, part_at as part_of, part_offset};

/// The level of the one block without a parent.
pub const TOP: u8 = 4;

/// How many bytes the largest block has, with its level before it.
pub const TEXT: usize = 257;

/// How many bytes one of the eight parts of a block has: a version, or a digest.
#[tactic(auto, unfolding(crate::specs::Area::part_size), using(crate::proofs::Levels::part_size_above))]
pub fn part_size(level: u8) -> usize
    ensures value { result ≡ size_of_part level }
    ensures few { result ≤ 32 }
{
    if level == 0 { 8 } else { 32 }
}

/// How many bytes a block has.
pub fn block_size(level: u8) -> usize
    ensures value { result ≡ size_of_block level }
    ensures few { result ≤ 256 }
{
    8 * part_size(level)
}

/// How many blocks a level has, 0 to 4.
pub fn width(level: u8) -> u32
    requires { level ≤ top_level }
    ensures { result ≡ width_of top_level level }
{
    match level {
        0 => 4096,
        1 => 512,
        2 => 64,
        3 => 8,
        _ => 1,
    }
}

/// Where a level, 0 to 4, begins in the area.
#[tactic(auto, unfolding(crate::specs::Area::level_offset, crate::specs::Area::part_size))]
pub fn level_offset(level: u8) -> u32
    requires { level ≤ top_level }
    ensures value { result ≡ offset_of_level top_level level }
    ensures within { result ≤ area_size }
{
    match level {
        0 => 0,
        1 => 262_144,
        2 => 393_216,
        3 => 409_600,
        _ => 411_648,
    }
}

/// Where the block of this index at a level lies in RAM.
#[tactic(auto, using(crate::proofs::PathsKept::block_within))]
pub fn block_at(level: u8, area: u32, index: u32) -> u32
    requires level { level ≤ top_level }
    requires index { index < width_of top_level level }
    requires area { area + area_size ≤ 2 ^ 26 }
    ensures value { result ≡ area + block_offset top_level level index }
    ensures within { result + size_of_block level ≤ area + area_size }
{
    area + (level_offset(level) + block_size(level) as u32 * index)
}

/// Where the digest of the block of this index at a level lies in RAM: in the level above.
#[tactic(auto, using(crate::proofs::Built::digest_within))]
pub fn digest_at(level: u8, area: u32, index: u32) -> u32
    requires level { level < top_level }
    requires index { index < width_of top_level level }
    requires area { area + area_size ≤ 2 ^ 26 }
    ensures value { result ≡ area + offset_of_level top_level (level + 1) + 32 * index }
    ensures within { result + 32 ≤ area + area_size }
{
    area + level_offset(level + 1) + 32 * index
}

/// The index of the line's block at a level.
#[tactic(auto, unfolding(crate::specs::Paths::index_at), using(crate::proofs::Levels::index_above))]
pub fn index_at(level: u8, line: u32) -> u32
    ensures value { result ≡ index_of level line }
    ensures few { result ≤ line }
{
    if level == 0 {
        line / 8
    } else {
        index_at(level - 1, line) / 8
    }
}

/// Which of the eight parts of that block the line is under.
#[tactic(auto, unfolding(crate::specs::Paths::part_at), using(crate::proofs::Levels::part_above))]
fn part_at(level: u8, line: u32) -> usize
    ensures value { result ≡ part_of level line }
    ensures few { result < 8 }
{
    let within = if level == 0 {
        line
    } else {
        index_at(level - 1, line)
    };
    (within % 8) as usize
}

/// Where that part begins in its block.
#[tactic(auto, using(crate::proofs::Levels::part_within))]
pub fn part_from(level: u8, line: u32) -> usize
    ensures value { result ≡ part_offset level line }
    ensures within { result + size_of_part level ≤ size_of_block level }
{
    part_size(level) * part_at(level, line)
}
