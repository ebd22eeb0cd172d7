ghost use Rattle.std.specs.Prelude.{◌≡◌, ◌≤◌, ◌<◌, ◌+◌};
ghost use Rattle.xom_versions.specs.Store.{line_limit, raise_room};
ghost use Rattle.xom_model.specs.Access.{after_raise, after_seal, write_back};
ghost use Rattle.xom_model.specs.Holds.{IsLive};
ghost use Rattle.xom_model.specs.State.{store_of};
ghost use Rattle.xom_private.specs.Cores.{rule_in};

use crate::Core;
use xom_base::{Entry, Rule};
use xom_versions::{Torn, VersionStore};

impl<V: VersionStore> Core<V> {
    /// Raises the version of a line of a live slot, or finds it torn.
    #[tactic(auto, unfolding(xom_model::specs::Access::after_raise))]
    fn raise(&mut self, slot: u8, line: u32) -> Result<u64, Torn>
        requires some { 1 ≤ slot }
        requires known { slot ≤ 16 }
        requires line { line < line_limit }
        requires live { IsLive self.old.core slot }
        requires room { raise_room ≤ self.old.spare }
        ensures core { self.new.core ≡ after_raise V.versions self.old.core slot line }
        ensures answer { result ≡ V.versions.answer_of_raise (store_of self.old.core slot) line self.old.core.ram }
        ensures room { self.old.spare ≤ self.new.spare + raise_room }
    {
        self.stores
            .raise(slot, line, &mut self.ram, &mut self.journal)
    }

    /// Seals a line of a live slot under a version, records the Seal, and writes the line to the frame
    /// of its page.
    #[tactic(auto, unfolding(xom_model::specs::Access::after_seal))]
    fn seal(&mut self, slot: u8, line: u32, version: u64, bytes: &[u8; 32])
        requires some { 1 ≤ slot }
        requires known { slot ≤ 16 }
        requires line { line < line_limit }
        requires live { IsLive self.old.core slot }
        requires room { 240 ≤ self.old.spare }
        ensures core { self.new.core ≡ after_seal V.versions self.old.core slot line bytes.now version }
        ensures room { self.old.spare ≤ self.new.spare + 240 }
    {
        let line_sealing = self.sealed(slot, line, version, bytes);
        let key = self.tag_key(slot, line, version);
        let message = line_sealing.message;
        let _key_size = key.len();
        let _message_size = message.len();
        self.journal.push(&Entry::Seal { key, message });
        if let Some(frame) = self.pages.frame_of(slot, line / 128) {
            let sealed = line_sealing.sealed;
            self.ram
                .write_line(frame, line % 128, &sealed.ct, &sealed.tag);
        }
    }

    /// Seals a line of a live slot under its next version and writes it to its page's frame. A rule
    /// that is answered is still to be obeyed: the caller stops the slot. Uses at most 5,000 bytes of
    /// spare.
    #[tactic(auto, unfolding(xom_model::specs::Access::after_raise))]
    pub fn write_back(&mut self, slot: u8, line: u32, bytes: &[u8; 32]) -> Result<(), Rule>
        requires some { 1 ≤ slot }
        requires known { slot ≤ 16 }
        requires line { line < line_limit }
        requires live { IsLive self.old.core slot }
        requires room { 5000 ≤ self.old.spare }
        ensures core { self.new.core ≡ (write_back V.versions self.old.core slot line bytes.now).0 }
        ensures rule { rule_in result ≡ (write_back V.versions self.old.core slot line bytes.now).1 }
        ensures room { self.old.spare ≤ self.new.spare + 5000 }
    {
        match self.raise(slot, line) {
            Ok(version) => {
                self.seal(slot, line, version, bytes);
                Ok(())
            }
            Err(torn) => Err(Rule::TreeNode(torn.level)),
        }
    }
}
