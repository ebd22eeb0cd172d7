ghost use Rattle.std.specs.Prelude.{◌≡◌, IfSome, Some, unwrap_or};
ghost use Rattle.replay_tree.specs.Tree.{TreeStands};
ghost use Rattle.replay_tree.specs.Calls.{in_area, top_level, tree, tree_raised};
ghost use Rattle.replay_tree.specs.TreeLaw.{tree_in_the_open, tree_law};

use crate::answers::{raise_in, version_in};
use crate::build::build_in;
use crate::place::TOP;
use crate::stand::Stand;
use line_ram::LineRam;
use std::alloc::Global;
use std::marker::Model;
use xom_base::NoMemory;
use xom_journal::Journal;
use xom_versions::{Torn, VersionStore};

/// Versions in an area of hostile RAM, below a root on chip. A call hashes the five blocks on the line's
/// path, and `raise` hashes as many new ones. `build` hashes each block of the tree once. No call takes
/// memory. A store that wasn't built yet is torn.
#[derive(Drop)]
pub struct TreeVersions {
    area: Option<u32>,
    root: [u8; 32],
}

impl Model for TreeVersions {
    ghost use Rattle.xom_versions.specs.Store.{Store};
    ghost use Rattle.replay_tree.specs.Calls.{in_area};

    ghost Value = { Store };

    ghost view = { λ store. in_area store.area store.root };
}

impl TreeVersions {
    /// Area and root. A store that was never built has no area: it tells area 0 and a root of 32 zeros.
    pub fn stand(&self) -> Stand
        ensures area { result.area ≡ unwrap_or self.now.area 0 }
        ensures root { result.root ≡ self.now.root }

        // A store that was built is all in this: `take` makes it again.
        ensures whole { IfSome self.now.area (λ area. self.now ≡ in_area (Some result.area) result.root) }
    {
        Stand {
            area: self.area.unwrap_or(0),
            root: self.root,
        }
    }

    /// Sets area and root, whatever the store was before. RAM isn't looked at: where the tree in this
    /// area isn't that of this root, the next call is torn.
    pub fn take(&mut self, stand: &Stand)
        ensures { self.new ≡ in_area (Some stand.now.area) stand.now.root }
    {
        self.area = Some(stand.area);
        self.root = stand.root;
    }
}

impl VersionStore for TreeVersions {
    ghost as_store = { λ store. store };

    ghost versions = { tree };

    ghost Stands = { TreeStands top_level };

    ghost raised_ram = { tree_raised };

    fn blank(alloc: Global) -> Result<TreeVersions, NoMemory> {
        Ok(TreeVersions {
            area: None,
            root: [0; 32],
        })
    }

    fn build(&mut self, area: u32, lines: u32, ram: &mut LineRam, journal: &mut Journal) {
        self.area = Some(area);
        self.root = build_in(area, lines, ram, journal);
    }

    fn version(&self, line: u32, ram: &LineRam, journal: &mut Journal) -> Result<u64, Torn> {
        match self.area {
            Some(area) => version_in(area, &self.root, line, ram, journal),
            None => Err(Torn { level: TOP }),
        }
    }

    fn raise(&mut self, line: u32, ram: &mut LineRam, journal: &mut Journal) -> Result<u64, Torn> {
        match self.area {
            Some(area) => raise_in(area, &mut self.root, line, ram, journal),
            None => Err(Torn { level: TOP }),
        }
    }

    ghost law = { tree_law };

    ghost in_the_open = { tree_in_the_open };
}
