ghost use Rattle.std.specs.Prelude.{◌≡◌, ◌≤◌, ◌<◌, ◌+◌, ◌^◌, ◌++◌, [], ◌∷◌, false};
ghost use Rattle.line_ram.specs.Bytes.{HoldsRange};
ghost use Rattle.xom_journal.specs.Log.{cost};
ghost use Rattle.xom_versions.specs.Store.{area_size, line_limit};
ghost use Rattle.xom_model.specs.Operation.{after_install, envelope_in_ram, envelope_size, install as install_of, is_bad_image as is_bad_image_of, unwrap as unwrap_of};
ghost use Rattle.xom_model.specs.State.{session_of};
ghost use Rattle.session_table.specs.Sessions.{fresh_session};
ghost use Rattle.session_table.specs.declared.session.SlotState.TheVariants as state;

use crate::tests::{holds, is_free, is_slot};
use xom_base::{Entry, Short};
use xom_journal::Journal;
use xom_private::Core;
use xom_seal::{Unwrapped, envelope_message, unwrap};
use xom_versions::VersionStore;

/// Makes a free slot hold the guest of the envelope at an address of RAM, with an area of RAM for its
/// versions: 0, or 1 where there is no such slot, 2 where it isn't free, 4 where RAM doesn't hold the
/// envelope or the area, 3 where the envelope isn't one for this machine, 7 where the image has too
/// many lines or an entry that is no place of an instruction.
pub fn install<V: VersionStore>(core: &mut Core<V>, slot: u32, envelope: u32, area: u32) -> u32
    requires number { core.old.core.installs < 2 ^ 63 }
    requires room { 801000 ≤ core.old.spare }
    ensures core { core.new.core ≡ (install_of V.versions core.old.core slot envelope area).0 }
    ensures status { result ≡ (install_of V.versions core.old.core slot envelope area).1 }
    ensures room { core.old.spare ≤ core.new.spare + 801000 }
{
    if !is_slot(slot) {
        return 1;
    }
    if !is_free(core.table.session(slot as u8).state) {
        return 2;
    }
    if !(holds(&core.ram, envelope, 88) && holds(&core.ram, area, 411_904)) {
        return 4;
    }
    let plain = unwrap(&core.machine, &envelope_in(core, envelope));
    start(core, slot as u8, envelope, area, plain)
}

/// The bytes of an envelope in RAM.
fn envelope_in<V: VersionStore>(core: &Core<V>, place: u32) -> [u8; 88]
    requires { HoldsRange core.now.core.ram place envelope_size }
    ensures { result ≡ envelope_in_ram core.now.core place }
{
    let mut envelope = [0; 88];
    core.ram.read(place, &mut envelope);
    envelope
}

/// Installs the guest of an opened envelope, if there is one and its image can be.
fn start<V: VersionStore>(
    core: &mut Core<V>,
    slot: u8,
    place: u32,
    area: u32,
    plain: Option<Unwrapped>,
) -> u32
    requires some { 1 ≤ slot }
    requires known { slot ≤ 16 }
    requires free { (session_of core.old.core slot).state ≡ state.Free }
    requires place { HoldsRange core.old.core.ram place envelope_size }
    requires area { HoldsRange core.old.core.ram area area_size }
    requires number { core.old.core.installs < 2 ^ 63 }
    requires room { 801000 ≤ core.old.spare }
    ensures core { core.new.core ≡ (unwrap_of V.versions core.old.core slot place area plain).0 }
    ensures status { result ≡ (unwrap_of V.versions core.old.core slot place area plain).1 }
    ensures room { core.old.spare ≤ core.new.spare + 801000 }
{
    let Some(plain) = plain else {
        return 3;
    };
    if is_bad_image(&plain) {
        return 7;
    }
    set_up(core, slot, place, area, &plain);
    0
}

/// Whether an image has too many lines, or an entry that is no place of an instruction.
fn is_bad_image(plain: &Unwrapped) -> bool
    ensures image { result ≡ is_bad_image_of (fresh_session 0 plain.now.id plain.now.key plain.now.entry plain.now.lines) }
    ensures lines { result ≡ false → plain.now.lines ≤ line_limit }
{
    plain.lines > 32_768 || (plain.entry % 4 != 0 || plain.entry >= 0x10_0000)
}

/// Records the Accept and the Install, makes the guest's keys and session, and builds its versions.
#[tactic(auto, unfolding(xom_model::specs::Operation::after_install))]
fn set_up<V: VersionStore>(core: &mut Core<V>, slot: u8, place: u32, area: u32, plain: &Unwrapped)
    requires some { 1 ≤ slot }
    requires known { slot ≤ 16 }
    requires free { (session_of core.old.core slot).state ≡ state.Free }
    requires place { HoldsRange core.old.core.ram place envelope_size }
    requires area { HoldsRange core.old.core.ram area area_size }
    requires lines { plain.now.lines ≤ line_limit }
    requires number { core.old.core.installs < 2 ^ 63 }
    requires room { 801000 ≤ core.old.spare }
    ensures core { core.new.core ≡ after_install V.versions core.old.core slot place area plain.now }
    ensures room { core.old.spare ≤ core.new.spare + 801000 }
{
    let message = envelope_message(&envelope_in(core, place));
    let key = Short::new(&core.machine.0);
    let _key_size = key.len();
    let _message_size = message.len();
    let accept = Entry::Accept {
        key,
        message,
        place,
    };
    let install = core
        .table
        .install(slot, plain.id, plain.key, plain.entry, plain.lines);
    let entry = Entry::Install {
        install,
        slot,
        id: plain.id,
        place,
        entry: plain.entry,
        lines: plain.lines,
    };
    push_both(&mut core.journal, &accept, &entry);
    core.keys
        .install(slot, &plain.key, &plain.id, core.boot, install);
    core.stores
        .build(slot, area, plain.lines, &mut core.ram, &mut core.journal);
}

/// Records two entries.
fn push_both(journal: &mut Journal, accept: &Entry, install: &Entry)
    requires accept { cost accept.now ≤ 240 }
    requires install { cost install.now ≤ 48 }
    requires room { 288 ≤ journal.old.spare }
    ensures entries { journal.new.entries ≡ journal.old.entries ++ accept.now ∷ install.now ∷ [] }
    ensures spare { journal.old.spare ≤ journal.new.spare + 288 }
{
    journal.push(accept);
    journal.push(install);
}
