ghost use Rattle.std.specs.Prelude.{◌≡◌, ◌≤◌, ◌<◌, ◌+◌, IsSome};
ghost use Rattle.line_cache.specs.Lines.{HasNoLine};
ghost use Rattle.page_map.specs.Pages.{frame_of};
ghost use Rattle.xom_model.specs.Operation.{first_refusal_or, unmap_page as unmap_page_of};
ghost use Rattle.xom_ops.specs.Unmapping.{frame_taken, mapped_tests, without_frame};

use crate::pages::refused;
use xom_private::Core;
use xom_versions::VersionStore;

/// Takes the frame of a private page of a guest that doesn't run away, after the page's lines left
/// the cache, the dirty ones sealed into RAM: 0, or 1 for a bad slot, 2 for one that isn't fresh or
/// paused, 7 where there is no such page, 5 where it has no frame, 8 where the guest is stopped since
/// its hash tree is torn.
pub fn unmap_page<V: VersionStore>(core: &mut Core<V>, slot: u32, page: u32) -> u32
    requires { 650100 ≤ core.old.spare }
    ensures core { core.new.core ≡ (unmap_page_of V.versions core.old.core slot page).0 }
    ensures status { result ≡ (unmap_page_of V.versions core.old.core slot page).1 }
    ensures room { core.old.spare ≤ core.new.spare + 650100 }
{
    match refused(core, slot, page) {
        Some(status) => status,
        None => unmap_known(core, slot as u8, page),
    }
}

/// Takes the frame of a page away, if it has one.
fn unmap_known<V: VersionStore>(core: &mut Core<V>, slot: u8, page: u32) -> u32
    requires slots { (1 ≤ slot) × (slot ≤ 16) }
    requires page { page < 256 }
    requires room { 650100 ≤ core.old.spare }
    ensures core { core.new.core ≡ (first_refusal_or core.old.core (mapped_tests core.old.core slot page) (frame_taken V.versions core.old.core slot page)).0 }
    ensures status { result ≡ (first_refusal_or core.old.core (mapped_tests core.old.core slot page) (frame_taken V.versions core.old.core slot page)).1 }
    ensures room { core.old.spare ≤ core.new.spare + 650100 }
{
    match core.pages.frame_of(slot, page) {
        Some(_) => take_frame(core, slot, page),
        None => 5,
    }
}

/// Flushes a page that has a frame, and takes the frame away. A torn tree stops the guest, which then
/// has no page.
fn take_frame<V: VersionStore>(core: &mut Core<V>, slot: u8, page: u32) -> u32
    requires slots { (1 ≤ slot) × (slot ≤ 16) }
    requires page { page < 256 }
    requires mapped { IsSome (frame_of core.old.core.pages slot page) }
    requires room { 650100 ≤ core.old.spare }
    ensures core { core.new.core ≡ (frame_taken V.versions core.old.core slot page).0 }
    ensures status { result ≡ (frame_taken V.versions core.old.core slot page).1 }
    ensures room { core.old.spare ≤ core.new.spare + 650100 }
{
    match core.flush_page(slot, page) {
        Ok(()) => {
            forget_frame(core, slot, page);
            0
        }
        Err(_) => 8,
    }
}

/// Takes the frame of a page away of which no line is cached.
fn forget_frame<V: VersionStore>(core: &mut Core<V>, slot: u8, page: u32)
    requires slots { (1 ≤ slot) × (slot ≤ 16) }
    requires page { page < 256 }
    requires mapped { IsSome (frame_of core.old.core.pages slot page) }
    requires flushed { HasNoLine core.old.core.ways slot page }
    ensures core { core.new.core ≡ without_frame core.old.core slot page }
    ensures room { core.new.spare ≡ core.old.spare }
{
    match core.pages.unmap(slot, page) {
        Ok(_) => {}
        Err(_) => unreachable!(),
    }
}
