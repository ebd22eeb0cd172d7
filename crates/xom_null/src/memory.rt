ghost use Rattle.std.specs.Prelude.{◌≡◌, ◌≤◌, ◌-◌, ◌%◌, length, IfOk, Some, None, if◌then◌else◌};
ghost use Rattle.line_ram.specs.Bytes.{HoldsRange, ram_with_bytes};
ghost use Rattle.mips_instruction.specs.Words.{Fits};
ghost use Rattle.mips_effect.specs.Effects.{IsAligned};
ghost use Rattle.mips_plain.specs.Memory.{low_bytes, word_at_address as word_of};
ghost use Rattle.xom_model.specs.Null.{fetched_open, loaded_open};
ghost use Rattle.xom_model.specs.State.{ram_holds_range as holds_range};

use line_ram::LineRam;
use mips_effect::{LoadKind, merge};
use mips_instruction::Ins;
use mips_isa::decode;
use xom_base::OwnFault;

/// The instruction at an address of RAM. Faults are Address off a multiple of 4 or where the word
/// isn't wholly in RAM, and Reserved for a word that is no instruction.
#[tactic(auto, unfolding(xom_model::specs::Null::fetched_open))]
pub fn fetch(ram: &LineRam, pc: u32) -> Result<Ins, OwnFault>
    ensures value { result ≡ fetched_open ram.now pc }
    ensures fits { IfOk result Fits }
{
    if pc % 4 != 0 || !holds(ram, pc, 4) {
        return Err(OwnFault::Address);
    }
    match decode(word_at(ram, pc)) {
        Some(ins) => Ok(ins),
        None => Err(OwnFault::Reserved),
    }
}

/// What a load writes, of the word that holds its address and of what the register had; None
/// where that word isn't in RAM.
pub fn load(ram: &LineRam, address: u32, kind: LoadKind, old: u32) -> Option<u32>
    requires { IsAligned kind address }
    ensures { result ≡ (if holds_range ram.now (address - address % 4) 4 then Some (loaded_open ram.now kind old address) else None) }
{
    let at = address - address % 4;
    if holds(ram, at, 4) {
        Some(merge(kind, old, address, word_at(ram, at)))
    } else {
        None
    }
}

/// Stores the low bytes of a value, 1 to 4 of them, big-endian, where all of their range is in
/// RAM, and answers whether it is.
pub fn store(ram: &mut LineRam, address: u32, count: u8, value: u32) -> bool
    requires some { 1 ≤ count }
    requires word { count ≤ 4 }
    ensures bytes { ram.new ≡ (if holds_range ram.old address count then ram_with_bytes ram.old address (low_bytes count value) else ram.old) }
    ensures inside { result ≡ holds_range ram.old address count }
    ensures size { length ram.new ≡ length ram.old }
{
    let inside = holds(ram, address, u32::from(count));
    if inside {
        ram.write(address, &value.to_be_bytes()[4 - usize::from(count)..]);
    }
    inside
}

/// Whether a range is in RAM.
fn holds(ram: &LineRam, address: u32, count: u32) -> bool
    ensures { result ≡ holds_range ram.now address count }
{
    ram.holds(address, count)
}

/// The big-endian word whose first byte is at an address.
fn word_at(ram: &LineRam, address: u32) -> u32
    requires { HoldsRange ram.now address 4 }
    ensures { result ≡ word_of ram.now address }
{
    let mut bytes = [0; 4];
    ram.read(address, &mut bytes);
    u32::from_be_bytes(bytes)
}
