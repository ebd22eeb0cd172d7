ghost use Rattle.std.specs.Prelude.{◌≡◌};
ghost use Rattle.std.specs.List.{list_any};
ghost use Rattle.trace_picture.specs.Lanes.{is_hash as is_hash_entry, is_in_lane, lane_of};

use xom_base::Entry;

/// The lane that an entry is drawn in: that of its install, or 0, the lane of memory and the console.
pub fn lane(entry: &Entry) -> u64
    ensures { result ≡ lane_of entry.now }
{
    match *entry {
        Entry::Install { install, .. } => install,
        Entry::Step { install, .. } => install,
        Entry::Trap { install, .. } => install,
        Entry::Stop { install, .. } => install,
        Entry::Kill { install } => install,
        Entry::Seal { .. } | Entry::Accept { .. } | Entry::Hash { .. } | Entry::Out { .. } => 0,
    }
}

/// Whether the entry is drawn in this lane.
pub fn is_in(wanted: u64, entry: &Entry) -> bool
    ensures { result ≡ is_in_lane wanted entry.now }
{
    lane(entry) == wanted
}

/// Whether one of these entries is drawn in this lane.
pub fn is_any_in(wanted: u64, entries: &[Entry]) -> bool
    ensures { result ≡ list_any (is_in_lane wanted) entries.now }
{
    for entry in entries {
        if is_in(wanted, entry) {
            return true;
        }
    }
    false
}

/// Whether the machine hashed a text.
pub fn is_hash(entry: &Entry) -> bool
    ensures { result ≡ is_hash_entry entry.now }
{
    matches!(entry, Entry::Hash { .. })
}
