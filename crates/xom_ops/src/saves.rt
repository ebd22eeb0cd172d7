ghost use Rattle.std.specs.Prelude.{◌≡◌, ◌≤◌, ◌<◌, ◌+◌, [], IfNone, IfSome, length, option_map};
ghost use Rattle.line_ram.specs.Bytes.{HoldsRange};
ghost use Rattle.tag_regs.specs.TaggedCells.{cell_at};
ghost use Rattle.xom_seal.specs.Messages.{register_message};
ghost use Rattle.xom_seal.specs.Sealing.{unsealed_register};
ghost use Rattle.xom_model.specs.Holds.{IsLive};
ghost use Rattle.xom_model.specs.Lines.{who_of};
ghost use Rattle.xom_model.specs.Operation.{after_restore, after_save, epoch_of, first_refusal_or, is_own_cell as is_own_cell_of, register_tests, reopening as reopen_of, restore_register as restore_register_of, save_register as save_register_of, success};
ghost use Rattle.xom_model.specs.Saves.{reg_keys, reg_name, saved_at, saved_size, with_saved};
ghost use Rattle.xom_ops.specs.Refusals.{mask_tests, own_tests, refusal};

use crate::tests::{holds, is_bad_slot, is_cell, is_paused};
use line_ram::LineRam;
use session_table::owns;
use tag_regs::Cells;
use xom_base::{Entry, Rule, Short};
use xom_private::Core;
use xom_seal::{RegName, RegisterOpening, RegisterSealer, SealedReg};
use xom_versions::VersionStore;

/// Seals a register of a paused guest under its epoch and writes it to RAM, 36 bytes: 0, or 1 for a bad
/// slot, 2 for one that isn't paused, 7 where there is no such cell, 4 where RAM doesn't hold the
/// bytes, 6 where the cell isn't the slot's own.
pub fn save_register<V: VersionStore>(core: &mut Core<V>, slot: u32, reg: u32, address: u32) -> u32
    requires { 240 ≤ core.old.spare }
    ensures core { core.new.core ≡ (save_register_of core.old.core slot reg address).0 }
    ensures status { result ≡ (save_register_of core.old.core slot reg address).1 }
    ensures room { core.old.spare ≤ core.new.spare + 240 }
{
    match refused(core, slot, reg, address) {
        Some(status) => status,
        None => save_own(core, slot as u8, reg as u8, address),
    }
}

/// Puts a sealed register back: 0, or 1 to 7 as for a save, but 6 where the guest doesn't own the
/// cell, and 8 where the guest is stopped since the tag isn't that of the bytes.
pub fn restore_register<V: VersionStore>(
    core: &mut Core<V>,
    slot: u32,
    reg: u32,
    address: u32,
) -> u32
    requires { 240 ≤ core.old.spare }
    ensures core { core.new.core ≡ (restore_register_of core.old.core slot reg address).0 }
    ensures status { result ≡ (restore_register_of core.old.core slot reg address).1 }
    ensures room { core.old.spare ≤ core.new.spare + 240 }
{
    match refused(core, slot, reg, address) {
        Some(status) => status,
        None => restore_owned(core, slot as u8, reg as u8, address),
    }
}

/// The status of the first test that both have in common and that holds, if one does.
fn refused<V: VersionStore>(core: &Core<V>, slot: u32, reg: u32, address: u32) -> Option<u32>
    ensures status { result ≡ refusal (register_tests core.now.core slot reg address []) }
    ensures slots { IfNone result ((1 ≤ slot) × (slot ≤ 16)) }
    ensures cells { IfNone result ((1 ≤ reg) × (reg < 34)) }
    ensures range { IfNone result (HoldsRange core.now.core.ram address saved_size) }
    ensures live { IfNone result (IsLive core.now.core slot) }
{
    if is_bad_slot(core, slot) {
        return Some(1);
    }
    if !is_paused(core.table.session(slot as u8).state) {
        return Some(2);
    }
    if !is_cell(reg) {
        return Some(7);
    }
    if !holds(&core.ram, address, 36) {
        return Some(4);
    }
    None
}

/// Saves a register, if it is the slot's own.
fn save_own<V: VersionStore>(core: &mut Core<V>, slot: u8, reg: u8, address: u32) -> u32
    requires slots { (1 ≤ slot) × (slot ≤ 16) }
    requires cells { (1 ≤ reg) × (reg < 34) }
    requires range { HoldsRange core.old.core.ram address saved_size }
    requires live { IsLive core.old.core slot }
    requires room { 240 ≤ core.old.spare }
    ensures core { core.new.core ≡ (first_refusal_or core.old.core (own_tests core.old.core slot reg) (success (after_save core.old.core slot reg address))).0 }
    ensures status { result ≡ (first_refusal_or core.old.core (own_tests core.old.core slot reg) (success (after_save core.old.core slot reg address))).1 }
    ensures room { core.old.spare ≤ core.new.spare + 240 }
{
    if !is_own_cell(&core.cells, slot, reg) {
        return 6;
    }
    save(core, slot, reg, address);
    0
}

/// Whether a cell is a slot's own.
fn is_own_cell(cells: &Cells, slot: u8, reg: u8) -> bool
    requires { (1 ≤ reg) × (reg < 34) }
    ensures { result ≡ is_own_cell_of slot (cell_at cells.now reg) }
{
    let (_value, tag) = cells.get(reg);
    tag == slot
}

/// Seals a register, records the Seal, and writes the sealed register to RAM.
#[tactic(auto, unfolding(xom_model::specs::Operation::after_save))]
fn save<V: VersionStore>(core: &mut Core<V>, slot: u8, reg: u8, address: u32)
    requires slots { (1 ≤ slot) × (slot ≤ 16) }
    requires cells { (1 ≤ reg) × (reg < 34) }
    requires range { HoldsRange core.old.core.ram address saved_size }
    requires live { IsLive core.old.core slot }
    requires room { 240 ≤ core.old.spare }
    ensures core { core.new.core ≡ after_save core.old.core slot reg address }
    ensures room { core.old.spare ≤ core.new.spare + 240 }
{
    let name = name_of(core, slot, reg);
    let (value, _tag) = core.cells.get(reg);
    let sealing = sealer(core, slot).seal(&name, value);
    let key = tag_key(core, slot);
    let message = sealing.message;
    let _key_size = key.len();
    let _message_size = message.len();
    core.journal.push(&Entry::Seal { key, message });
    write_saved(&mut core.ram, address, &sealing.sealed);
}

/// The name of a register of a slot's guest under its epoch.
fn name_of<V: VersionStore>(core: &Core<V>, slot: u8, reg: u8) -> RegName
    requires { slot ≤ 16 }
    ensures { result ≡ reg_name (who_of core.now.core slot) (epoch_of core.now.core slot) reg }
{
    let session = core.table.session(slot);
    RegName {
        boot: core.boot,
        install: session.install,
        epoch: session.epoch,
        reg,
    }
}

/// The keys of a live slot's registers under its epoch, as they were made ready.
fn sealer<V: VersionStore>(core: &Core<V>, slot: u8) -> &RegisterSealer
    requires known { slot ≤ 16 }
    requires live { IsLive core.now.core slot }
    ensures { result.now ≡ reg_keys (who_of core.now.core slot) (epoch_of core.now.core slot) }
{
    core.keys.of(slot).registers()
}

/// The tag key among them, as the journal names it.
fn tag_key<V: VersionStore>(core: &Core<V>, slot: u8) -> Short
    requires known { slot ≤ 16 }
    requires live { IsLive core.now.core slot }
    ensures { result ≡ (reg_keys (who_of core.now.core slot) (epoch_of core.now.core slot)).tag.0 }
{
    Short::new(&core.keys.of(slot).registers_tag().0)
}

/// Writes a saved register to RAM.
fn write_saved(ram: &mut LineRam, address: u32, sealed: &SealedReg)
    requires { HoldsRange ram.old address saved_size }
    ensures bytes { ram.new ≡ with_saved ram.old address sealed.now }
    ensures size { length ram.new ≡ length ram.old }
{
    let _size = ram.size();
    ram.write(address, &sealed.ct);
    ram.write(address + 4, &sealed.tag);
}

/// What stands in RAM for a saved register.
fn read_saved(ram: &LineRam, address: u32) -> SealedReg
    requires { HoldsRange ram.now address saved_size }
    ensures { result ≡ saved_at ram.now address }
{
    let _size = ram.size();
    let mut ct = [0; 4];
    let mut tag = [0; 32];
    ram.read(address, &mut ct);
    ram.read(address + 4, &mut tag);
    SealedReg { ct, tag }
}

/// Restores a register, if the guest owns it.
fn restore_owned<V: VersionStore>(core: &mut Core<V>, slot: u8, reg: u8, address: u32) -> u32
    requires slots { (1 ≤ slot) × (slot ≤ 16) }
    requires cells { (1 ≤ reg) × (reg < 34) }
    requires range { HoldsRange core.old.core.ram address saved_size }
    requires live { IsLive core.old.core slot }
    requires room { 240 ≤ core.old.spare }
    ensures core { core.new.core ≡ (first_refusal_or core.old.core (mask_tests core.old.core slot reg) (reopen_of core.old.core slot reg address)).0 }
    ensures status { result ≡ (first_refusal_or core.old.core (mask_tests core.old.core slot reg) (reopen_of core.old.core slot reg address)).1 }
    ensures room { core.old.spare ≤ core.new.spare + 240 }
{
    if !owns(core.table.session(slot).mask, reg) {
        return 6;
    }
    reopen(core, slot, reg, address)
}

/// Puts a sealed register back where its tag is right, and else stops the guest.
fn reopen<V: VersionStore>(core: &mut Core<V>, slot: u8, reg: u8, address: u32) -> u32
    requires slots { (1 ≤ slot) × (slot ≤ 16) }
    requires cells { (1 ≤ reg) × (reg < 34) }
    requires range { HoldsRange core.old.core.ram address saved_size }
    requires live { IsLive core.old.core slot }
    requires room { 240 ≤ core.old.spare }
    ensures core { core.new.core ≡ (reopen_of core.old.core slot reg address).0 }
    ensures status { result ≡ (reopen_of core.old.core slot reg address).1 }
    ensures room { core.old.spare ≤ core.new.spare + 240 }
{
    let sealed = read_saved(&core.ram, address);
    match opened(core, slot, reg, &sealed) {
        Some(opening) => {
            restore(core, slot, reg, address, &opening);
            0
        }
        None => {
            core.stop(slot, Rule::RegisterTag(reg));
            8
        }
    }
}

/// A sealed register of a slot, opened under the epoch, where its tag is right.
fn opened<V: VersionStore>(
    core: &Core<V>,
    slot: u8,
    reg: u8,
    sealed: &SealedReg,
) -> Option<RegisterOpening>
    requires known { slot ≤ 16 }
    requires live { IsLive core.now.core slot }
    ensures value { option_map (λ o. o.value) result ≡ unsealed_register (reg_name (who_of core.now.core slot) (epoch_of core.now.core slot) reg) (reg_keys (who_of core.now.core slot) (epoch_of core.now.core slot)) sealed.now }
    ensures message { IfSome result (λ o. o.message ≡ register_message (reg_name (who_of core.now.core slot) (epoch_of core.now.core slot) reg) sealed.now.ct) }
{
    sealer(core, slot).open(&name_of(core, slot, reg), sealed)
}

/// Records that a saved register was accepted, and sets its cell with the slot's tag.
#[tactic(auto, unfolding(xom_model::specs::Operation::after_restore))]
fn restore<V: VersionStore>(
    core: &mut Core<V>,
    slot: u8,
    reg: u8,
    address: u32,
    opening: &RegisterOpening,
)
    requires slots { (1 ≤ slot) × (slot ≤ 16) }
    requires cells { (1 ≤ reg) × (reg < 34) }
    requires live { IsLive core.old.core slot }
    requires message { opening.now.message ≡ register_message (reg_name (who_of core.old.core slot) (epoch_of core.old.core slot) reg) (saved_at core.old.core.ram address).ct }
    requires room { 240 ≤ core.old.spare }
    ensures core { core.new.core ≡ after_restore core.old.core slot reg address opening.now.value }
    ensures room { core.old.spare ≤ core.new.spare + 240 }
{
    let key = tag_key(core, slot);
    let message = opening.message;
    let _key_size = key.len();
    let _message_size = message.len();
    core.journal.push(&Entry::Accept {
        key,
        message,
        place: address,
    });
    core.cells.set(reg, opening.value, slot);
}
