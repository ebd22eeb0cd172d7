ghost use Rattle.std.specs.Prelude.{◌≡◌, ◌≤◌};
ghost use Rattle.xom_model.specs.Holds.{IsLive};
ghost use Rattle.xom_model.specs.Lines.{is_image_at, keys_of, line_name_of, message_as, sealed_as, who_of};

use crate::Core;
use xom_base::Short;
use xom_seal::{LineName, LineSealer, LineSealing};
use xom_versions::VersionStore;

impl<V: VersionStore> Core<V> {
    /// Whether a line stands under a version as the owner sealed it.
    fn is_image(&self, slot: u8, line: u32, version: u64) -> bool
        requires { slot ≤ 16 }
        ensures { result ≡ is_image_at (who_of self.now.core slot) line version }
    {
        line < self.table.session(slot).lines && version == 1
    }

    /// The name of a line of a slot's guest under a version.
    pub(crate) fn name(&self, slot: u8, line: u32, version: u64) -> LineName
        requires { slot ≤ 16 }
        ensures { result ≡ line_name_of (who_of self.now.core slot) line version }
    {
        let session = self.table.session(slot);
        if self.is_image(slot, line, version) {
            LineName::Image {
                id: session.id,
                line,
            }
        } else {
            LineName::Run {
                boot: self.boot,
                install: session.install,
                line,
                version,
            }
        }
    }

    /// The keys of a line of a live slot under a version, as they were made ready.
    pub(crate) fn sealer(&self, slot: u8, line: u32, version: u64) -> &LineSealer
        requires known { slot ≤ 16 }
        requires live { IsLive self.now.core slot }
        ensures { result.now ≡ keys_of (who_of self.now.core slot) line version }
    {
        let keys = self.keys.of(slot);
        if self.is_image(slot, line, version) {
            keys.image()
        } else {
            keys.run()
        }
    }

    /// The tag key among them, as the journal names it.
    pub(crate) fn tag_key(&self, slot: u8, line: u32, version: u64) -> Short
        requires known { slot ≤ 16 }
        requires live { IsLive self.now.core slot }
        ensures { result ≡ (keys_of (who_of self.now.core slot) line version).tag.0 }
    {
        if self.is_image(slot, line, version) {
            Short::new(&self.table.session(slot).key.0)
        } else {
            Short::new(&self.keys.of(slot).run_tag().0)
        }
    }

    /// A line's bytes sealed under a version, and the message that was tagged.
    pub(crate) fn sealed(&self, slot: u8, line: u32, version: u64, bytes: &[u8; 32]) -> LineSealing
        requires known { slot ≤ 16 }
        requires live { IsLive self.now.core slot }
        ensures sealed { result.sealed ≡ sealed_as (who_of self.now.core slot) line version bytes.now }
        ensures message { result.message ≡ message_as (who_of self.now.core slot) line version result.sealed.ct }
    {
        let name = self.name(slot, line, version);
        self.sealer(slot, line, version).seal(&name, bytes)
    }
}
