ghost use Rattle.std.specs.Prelude.{◌≡◌, ◌≤◌, ◌<◌, ◌*◌, IfNone, None};
ghost use Rattle.xom_base.specs.Frames.{frame_size};
ghost use Rattle.line_ram.specs.Bytes.{HoldsFrame};
ghost use Rattle.page_map.specs.Pages.{frame_of};
ghost use Rattle.xom_model.specs.Holds.{IsLive};
ghost use Rattle.xom_model.specs.Operation.{first_refusal_or, map_page as map_page_of, success};
ghost use Rattle.xom_model.specs.State.{ram_holds_range as holds_range};
ghost use Rattle.xom_ops.specs.Refusals.{frame_tests, page_tests, refusal, with_frame};

use crate::tests::{is_bad_slot, waits};
use line_ram::LineRam;
use xom_private::Core;
use xom_versions::VersionStore;

/// Gives a private page of a guest that doesn't run a frame of RAM: 0, or 1 for a bad slot, 2 for one
/// that isn't fresh or paused, 7 where there is no such page, 4 where RAM doesn't have the frame, 5
/// where the page has a frame.
pub fn map_page<V: VersionStore>(core: &mut Core<V>, slot: u32, page: u32, frame: u32) -> u32
    ensures core { core.new.core ≡ (map_page_of V.versions core.old.core slot page frame).0 }
    ensures status { result ≡ (map_page_of V.versions core.old.core slot page frame).1 }
    ensures room { core.new.spare ≡ core.old.spare }
{
    match refused(core, slot, page) {
        Some(status) => status,
        None => map_free(core, slot as u8, page, frame),
    }
}

/// The status of the first test that both operations on pages have in common and that holds, if one
/// does.
pub fn refused<V: VersionStore>(core: &Core<V>, slot: u32, page: u32) -> Option<u32>
    ensures status { result ≡ refusal (page_tests core.now.core slot page) }
    ensures slots { IfNone result ((1 ≤ slot) × (slot ≤ 16)) }
    ensures page { IfNone result (page < 256) }
    ensures live { IfNone result (IsLive core.now.core slot) }
{
    if is_bad_slot(core, slot) {
        return Some(1);
    }
    if !waits(core.table.session(slot as u8).state) {
        return Some(2);
    }
    if page >= 256 {
        return Some(7);
    }
    None
}

/// Gives a page a frame, if RAM has the frame and the page has none.
fn map_free<V: VersionStore>(core: &mut Core<V>, slot: u8, page: u32, frame: u32) -> u32
    requires slots { (1 ≤ slot) × (slot ≤ 16) }
    requires page { page < 256 }
    requires live { IsLive core.old.core slot }
    ensures core { core.new.core ≡ (first_refusal_or core.old.core (frame_tests core.old.core slot page frame) (success (with_frame core.old.core slot page frame))).0 }
    ensures status { result ≡ (first_refusal_or core.old.core (frame_tests core.old.core slot page frame) (success (with_frame core.old.core slot page frame))).1 }
    ensures room { core.new.spare ≡ core.old.spare }
{
    if !holds_frame(&core.ram, frame) {
        return 4;
    }
    match core.pages.frame_of(slot, page) {
        Some(_) => 5,
        None => {
            give_frame(core, slot, page, frame);
            0
        }
    }
}

/// Gives a page that has none a frame that RAM has.
fn give_frame<V: VersionStore>(core: &mut Core<V>, slot: u8, page: u32, frame: u32)
    requires slots { (1 ≤ slot) × (slot ≤ 16) }
    requires page { page < 256 }
    requires live { IsLive core.old.core slot }
    requires frame { HoldsFrame core.old.core.ram frame }
    requires none { frame_of core.old.core.pages slot page ≡ None }
    ensures core { core.new.core ≡ with_frame core.old.core slot page frame }
    ensures room { core.new.spare ≡ core.old.spare }
{
    match core.pages.map(slot, page, frame) {
        Ok(()) => {}
        Err(_) => unreachable!(),
    }
}

/// Whether RAM has a frame.
fn holds_frame(ram: &LineRam, frame: u32) -> bool
    ensures { result ≡ holds_range ram.now (frame * frame_size) frame_size }
{
    u64::from(frame) * 8192 + 8192 <= u64::from(ram.size())
}
