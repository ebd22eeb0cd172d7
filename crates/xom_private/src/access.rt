ghost use Rattle.std.specs.Prelude.{◌≡◌, ◌≤◌, ◌<◌, ◌+◌, None, Some, IfSome, option_map};
ghost use Rattle.line_cache.specs.Ways.{place_of_line};
ghost use Rattle.page_map.specs.Pages.{frame_of};
ghost use Rattle.xom_seal.specs.Sealing.{unsealed_line};
ghost use Rattle.xom_versions.specs.Store.{line_limit, version_room};
ghost use Rattle.xom_model.specs.Access.{access, reach_by_cache, reach_by_frame};
ghost use Rattle.xom_model.specs.Holds.{IsLive};
ghost use Rattle.xom_model.specs.Lines.{accept_entry, ct_place, keys_of, line_name_of, message_as, sealed_at as sealed_in, who_of};
ghost use Rattle.xom_model.specs.State.{core_with_hashes, page_of, store_of, with_entry};
ghost use Rattle.xom_private.specs.Settling.{stopped_for};

use crate::Core;
use line_ram::LineRam;
use xom_base::{Entry, Rule, Short};
use xom_model::reach::Reach;
use xom_seal::{LineOpening, SealedLine};
use xom_versions::{Torn, VersionStore};

impl<V: VersionStore> Core<V> {
    /// What stands in RAM for a line of a page with a frame.
    fn sealed_at(&self, slot: u8, line: u32, frame: u32) -> SealedLine
        requires { frame_of self.now.core.pages slot (page_of line) ≡ Some frame }
        ensures { result ≡ sealed_in self.now.core.ram frame line }
    {
        let mut ct = [0; 32];
        let mut tag = [0; 32];
        self.ram.read_line(frame, line % 128, &mut ct, &mut tag);
        SealedLine { ct, tag }
    }

    /// A sealed line of a live slot, opened under a version, where its tag is right.
    fn opened(&self, slot: u8, line: u32, version: u64, sealed: &SealedLine) -> Option<LineOpening>
        requires known { slot ≤ 16 }
        requires live { IsLive self.now.core slot }
        ensures plain { option_map (λ o. o.plain) result ≡ unsealed_line (line_name_of (who_of self.now.core slot) line version) (keys_of (who_of self.now.core slot) line version) sealed.now }
        ensures message { IfSome result (λ o. o.message ≡ message_as (who_of self.now.core slot) line version sealed.now.ct) }
    {
        let name = self.name(slot, line, version);
        self.sealer(slot, line, version).open(&name, sealed)
    }

    /// Records that a line of a live slot was accepted from its place in a frame.
    fn accept(
        &mut self,
        slot: u8,
        line: u32,
        version: u64,
        frame: u32,
        sealed: &SealedLine,
        message: Short,
    )
        requires known { slot ≤ 16 }
        requires live { IsLive self.old.core slot }
        requires frame { frame_of self.old.core.pages slot (page_of line) ≡ Some frame }
        requires message { message ≡ message_as (who_of self.old.core slot) line version sealed.now.ct }
        requires room { 240 ≤ self.old.spare }
        ensures core { self.new.core ≡ with_entry self.old.core (accept_entry (who_of self.old.core slot) line version sealed.now.ct (ct_place frame line)) }
        ensures room { self.old.spare ≤ self.new.spare + 240 }
    {
        let _size = self.ram.size();
        let key = self.tag_key(slot, line, version);
        let _key_size = key.len();
        let _message_size = message.len();
        let place = frame * LineRam::FRAME + 32 * (line % 128);
        self.journal.push(&Entry::Accept {
            key,
            message,
            place,
        });
    }

    /// Stops a slot in the middle of an access.
    fn refuse(&mut self, slot: u8, rule: Rule) -> Reach
        requires some { 1 ≤ slot }
        requires known { slot ≤ 16 }
        requires room { 100 ≤ self.old.spare }
        ensures core { self.new.core ≡ (stopped_for self.old.core slot rule).0 }
        ensures reach { result ≡ (stopped_for self.old.core slot rule).1 }
        ensures room { self.old.spare ≤ self.new.spare + 100 }
    {
        self.stop(slot, rule);
        Reach::Stopped(rule)
    }

    /// Reads a line that isn't cached from its frame under a version, and accepts it where its tag is
    /// right. Else its slot is stopped.
    fn read_line(&mut self, slot: u8, line: u32, frame: u32, version: u64) -> Reach
        requires some { 1 ≤ slot }
        requires known { slot ≤ 16 }
        requires line { line < line_limit }
        requires live { IsLive self.old.core slot }
        requires frame { frame_of self.old.core.pages slot (page_of line) ≡ Some frame }
        requires absent { place_of_line self.old.core.ways slot line ≡ None }
        requires room { 5500 ≤ self.old.spare }
        ensures core { self.new.core ≡ (reach_by_frame V.versions self.old.core slot line frame version).0 }
        ensures reach { result ≡ (reach_by_frame V.versions self.old.core slot line frame version).1 }
        ensures room { self.old.spare ≤ self.new.spare + 5500 }
    {
        let sealed = self.sealed_at(slot, line, frame);
        match self.opened(slot, line, version, &sealed) {
            Some(opening) => {
                self.accept(slot, line, version, frame, &sealed, opening.message);
                self.place(slot, line, &opening.plain)
            }
            None => self.refuse(slot, Rule::LineTag(line)),
        }
    }

    /// The version of a line of a live slot, or where its tree is torn.
    fn version(&mut self, slot: u8, line: u32) -> Result<u64, Torn>
        requires some { 1 ≤ slot }
        requires known { slot ≤ 16 }
        requires line { line < line_limit }
        requires live { IsLive self.old.core slot }
        requires room { version_room ≤ self.old.spare }
        ensures core { self.new.core ≡ core_with_hashes self.old.core (V.versions.texts_of_version (store_of self.old.core slot) line self.old.core.ram) }
        ensures answer { result ≡ V.versions.answer_of_version (store_of self.old.core slot) line self.old.core.ram }
        ensures room { self.old.spare ≤ self.new.spare + version_room }
    {
        self.stores
            .version(slot, line, &self.ram, &mut self.journal)
    }

    /// Brings a line that isn't cached into the cache, where its version is answered. Version 0 means
    /// zeros, and RAM isn't read then.
    fn bring(&mut self, slot: u8, line: u32, frame: u32) -> Reach
        requires some { 1 ≤ slot }
        requires known { slot ≤ 16 }
        requires line { line < line_limit }
        requires live { IsLive self.old.core slot }
        requires frame { frame_of self.old.core.pages slot (page_of line) ≡ Some frame }
        requires absent { place_of_line self.old.core.ways slot line ≡ None }
        requires room { 10000 ≤ self.old.spare }
        ensures core { self.new.core ≡ (reach_by_cache V.versions self.old.core slot line frame None).0 }
        ensures reach { result ≡ (reach_by_cache V.versions self.old.core slot line frame None).1 }
        ensures room { self.old.spare ≤ self.new.spare + 10000 }
    {
        match self.version(slot, line) {
            Ok(version) => {
                if version == 0 {
                    self.place(slot, line, &[0; 32])
                } else {
                    self.read_line(slot, line, frame, version)
                }
            }
            Err(torn) => self.refuse(slot, Rule::TreeNode(torn.level)),
        }
    }

    /// Makes a line of a live slot stand in the cache. A cached line costs one look at the four ways of
    /// its set; for another its version is asked for, one tag is checked and two AES blocks are made,
    /// and the same where a dirty line is pushed out. Uses at most 10,000 bytes of spare.
    #[tactic(auto, unfolding(xom_model::specs::Access::access))]
    pub fn line_for(&mut self, slot: u8, line: u32) -> Reach
        requires some { 1 ≤ slot }
        requires known { slot ≤ 16 }
        requires line { line < line_limit }
        requires live { IsLive self.old.core slot }
        requires room { 10000 ≤ self.old.spare }
        ensures core { self.new.core ≡ (access V.versions self.old.core slot line).0 }
        ensures reach { result ≡ (access V.versions self.old.core slot line).1 }
        ensures room { self.old.spare ≤ self.new.spare + 10000 }
    {
        let page = line / 128;
        let Some(frame) = self.pages.frame_of(slot, page) else {
            return Reach::PageFault(page);
        };
        match self.cache.find(slot, line) {
            Some(place) => Reach::Ready(place),
            None => self.bring(slot, line, frame),
        }
    }
}
