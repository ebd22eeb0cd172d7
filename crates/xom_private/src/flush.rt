ghost use Rattle.std.specs.Prelude.{◌≡◌, ◌≤◌, ◌+◌, ◌*◌, ◌↔◌, IfNone, IfSome, IsNone, OnOk};
ghost use Rattle.line_cache.specs.Lines.{HasNoLine, IsLine};
ghost use Rattle.line_ram.specs.Bytes.{frame_lines};
ghost use Rattle.xom_model.specs.Access.{after_flush};
ghost use Rattle.xom_model.specs.Holds.{IsLive};
ghost use Rattle.xom_private.specs.Cores.{rule_in};
ghost use Rattle.xom_private.specs.Flushing.{TakesOut, settled_out};

use crate::Core;
use line_cache::Victim;
use xom_base::Rule;
use xom_versions::VersionStore;

impl<V: VersionStore> Core<V> {
    /// Takes the least cached line of a page of a slot out of the cache. None where none is cached.
    fn take_out(&mut self, slot: u8, page: u32) -> Option<Victim>
        requires { 1 ≤ slot }
        ensures none { IsNone result ↔ HasNoLine self.old.core.ways slot page }
        ensures same { IfNone result (self.new.core ≡ self.old.core) }
        ensures takes { IfSome result (λ victim. TakesOut self.old.core self.new.core slot page victim) }
        ensures room { self.new.spare ≡ self.old.spare }
    {
        self.cache.take_page(slot, page)
    }

    /// Writes back a line that was taken out of the cache, where it is dirty. Where its version is
    /// torn, its slot is stopped.
    fn settle_out(&mut self, victim: &Victim) -> Result<(), Rule>
        requires range { IsLine victim.now }
        requires live { IsLive self.old.core victim.now.slot }
        requires room { 5100 ≤ self.old.spare }
        ensures core { self.new.core ≡ (settled_out V.versions self.old.core victim.now).0 }
        ensures rule { rule_in result ≡ (settled_out V.versions self.old.core victim.now).1 }
        ensures written { OnOk result (self.old.spare ≤ self.new.spare + 5000) }
        ensures room { self.old.spare ≤ self.new.spare + 5100 }
    {
        if !victim.dirty {
            return Ok(());
        }
        match self.write_back(victim.slot, victim.line, &victim.bytes) {
            Ok(()) => Ok(()),
            Err(rule) => {
                self.stop(victim.slot, rule);
                Err(rule)
            }
        }
    }

    /// Takes the lines of a page of a slot, 1 to 16, out of the cache, in ascending order. Those that
    /// are dirty are written back. A torn tree stops the slot and ends the flush with its rule. Walks
    /// all places of the cache once for each cached line of the page, and once more. Uses at most
    /// 650,000 bytes of spare.
    pub fn flush_page(&mut self, slot: u8, page: u32) -> Result<(), Rule>
        requires some { 1 ≤ slot }
        requires room { 650000 ≤ self.old.spare }
        ensures core { self.new.core ≡ (after_flush V.versions slot frame_lines (frame_lines * page) self.old.core).0 }
        ensures rule { rule_in result ≡ (after_flush V.versions slot frame_lines (frame_lines * page) self.old.core).1 }
        ensures room { self.old.spare ≤ self.new.spare + 650000 }
        ensures pages { OnOk result (self.new.core.pages ≡ self.old.core.pages) }
        ensures gone { OnOk result (HasNoLine self.new.core.ways slot page) }
    {
        for _line in 0..128u32 {
            let Some(victim) = self.take_out(slot, page) else {
                return Ok(());
            };
            self.settle_out(&victim)?;
        }
        Ok(())
    }
}
