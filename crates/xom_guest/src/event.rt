ghost use Rattle.std.specs.Prelude.{◌≡◌, ◌≤◌, ◌<◌, ◌+◌, ◌^◌, IfOk, IfSome, IsTrue};
ghost use Rattle.mips_effect.specs.Effects.{IsInRange, Ranged};
ghost use Rattle.mips_plain.specs.Instruction.{is_code as is_code_of};
ghost use Rattle.xom_model.specs.Guest.{address_in as address_in_of, after_effect, data_of, guest, word_in, word_loaded, word_tried};
ghost use Rattle.xom_model.specs.Holds.{IsRunning};
ghost use Rattle.line_cache.specs.Ways.{way_at};
ghost use Rattle.xom_versions.specs.Store.{line_limit};
ghost use Rattle.xom_model.specs.Access.{access};
ghost use Rattle.xom_model.specs.State.{session_of};
ghost use Rattle.xom_guest.specs.Places.{AccessComes, IsPlaceOf};

use crate::retire::{retires, trap};
use crate::{cells, lines};
use mips_effect::effects::Effect;
use mips_effect::{Mode, Wish, effect, sources};
use mips_isa::decode;
use mips_plain::{Memory, returned};
use xom_base::{Cause, OwnFault};
use xom_model::reach::Reach;
use xom_private::Core;
use xom_versions::VersionStore;

/// Makes one event of the guest that runs in a slot, 1 to 16, with the interrupt line after it, and
/// answers the cause where the guest left: None exactly where it goes on. Takes no memory, and at
/// most 20,200 bytes of spare. Costs the same however much memory the guest has.
#[tactic(auto, unfolding(xom_model::specs::Guest::guest))]
pub fn guest_event<V: VersionStore>(core: &mut Core<V>, slot: u8, interrupt: bool) -> Option<Cause>
    requires some { 1 ≤ slot }
    requires known { slot ≤ 16 }
    requires runs { IsRunning core.old.core slot }
    requires epoch { (session_of core.old.core slot).epoch < 2 ^ 63 }
    requires room { 20200 ≤ core.old.spare }
    ensures core { core.new.core ≡ (guest V.versions core.old.core slot interrupt).0 }
    ensures cause { result ≡ (guest V.versions core.old.core slot interrupt).1 }
    ensures room { core.old.spare ≤ core.new.spare + 20200 }
{
    let pc = core.table.session(slot).pc;
    if !is_code(pc) {
        return trap(core, slot, Cause::Fault(OwnFault::Address));
    }
    match reach(core, slot, pc / 32) {
        Reach::Ready(place) => {
            let tried = attempt(core, slot, place);
            run(core, slot, interrupt, tried)
        }
        Reach::PageFault(page) => trap(core, slot, Cause::Page(page)),
        Reach::Stopped(rule) => Some(Cause::Stopped(rule)),
    }
}

/// The private access to a line of the guest that runs. Where the line is ready or its page isn't
/// mapped, the guest runs on.
fn reach<V: VersionStore>(core: &mut Core<V>, slot: u8, line: u32) -> Reach
    requires some { 1 ≤ slot }
    requires known { slot ≤ 16 }
    requires line { line < line_limit }
    requires runs { IsRunning core.old.core slot }
    requires room { 10000 ≤ core.old.spare }
    ensures core { core.new.core ≡ (access V.versions core.old.core slot line).0 }
    ensures reach { result ≡ (access V.versions core.old.core slot line).1 }
    ensures came { AccessComes core.old.core core.new.core slot result }
    ensures room { core.old.spare ≤ core.new.spare + 10000 }
{
    // The core's type has more to say than its record.
    let _boot = core.boot;
    core.line_for(slot, line)
}

/// An instruction may stand here: at a multiple of 4 in private memory.
#[tactic(auto, using(mips_plain::proofs::Sizes::private_size_is))]
fn is_code(pc: u32) -> bool
    ensures value { result ≡ is_code_of pc }
    ensures low { IsTrue result → pc < 2 ^ 20 }
{
    pc % 4 == 0 && pc < Memory::SIZE
}

/// What the instruction at the guest's pair comes to, over what the guest sees of the cells. Its line
/// is ready at a place.
fn attempt<V: VersionStore>(core: &Core<V>, slot: u8, place: u32) -> Result<Effect, OwnFault>
    requires some { 1 ≤ slot }
    requires known { slot ≤ 16 }
    requires place { IsPlaceOf core.now.core.ways slot place }
    ensures value { result ≡ word_tried V.versions core.now.core slot (word_in (way_at core.now.core.ways place).bytes (session_of core.now.core slot).pc) }
    ensures ranged { IfOk result Ranged }
{
    let session = core.table.session(slot);
    let word = lines::word_in(core.cache.bytes(place), session.pc);
    let Some(ins) = decode(word) else {
        return Err(OwnFault::Reserved);
    };
    let (first, second, third) = sources(ins);
    let effect = effect(
        ins,
        Mode::Guest,
        cells::seen_by(slot, &core.cells, first),
        cells::seen_by(slot, &core.cells, second),
        cells::seen_by(slot, &core.cells, third),
        session.pc,
        session.npc,
    )?;
    returned(effect, session.saved)
}

/// An own fault traps before anything changes, and an effect goes on to its access.
fn run<V: VersionStore>(
    core: &mut Core<V>,
    slot: u8,
    interrupt: bool,
    tried: Result<Effect, OwnFault>,
) -> Option<Cause>
    requires some { 1 ≤ slot }
    requires known { slot ≤ 16 }
    requires runs { IsRunning core.old.core slot }
    requires epoch { (session_of core.old.core slot).epoch < 2 ^ 63 }
    requires ranged { IfOk tried Ranged }
    requires room { 10200 ≤ core.old.spare }
    ensures core { core.new.core ≡ (after_effect V.versions core.old.core slot interrupt tried).0 }
    ensures cause { result ≡ (after_effect V.versions core.old.core slot interrupt tried).1 }
    ensures room { core.old.spare ≤ core.new.spare + 10200 }
{
    match tried {
        Err(fault) => trap(core, slot, Cause::Fault(fault)),
        Ok(effect) => reach_data(core, slot, interrupt, &effect),
    }
}

/// The private access of an instruction's own bytes, if it has some. What stands against it comes
/// before anything changes; else the instruction retires.
fn reach_data<V: VersionStore>(
    core: &mut Core<V>,
    slot: u8,
    interrupt: bool,
    effect: &Effect,
) -> Option<Cause>
    requires some { 1 ≤ slot }
    requires known { slot ≤ 16 }
    requires runs { IsRunning core.old.core slot }
    requires epoch { (session_of core.old.core slot).epoch < 2 ^ 63 }
    requires ranged { Ranged effect.now }
    requires room { 10200 ≤ core.old.spare }
    ensures core { core.new.core ≡ (data_of V.versions core.old.core slot interrupt effect.now (address_in_of effect.now.wish)).0 }
    ensures cause { result ≡ (data_of V.versions core.old.core slot interrupt effect.now (address_in_of effect.now.wish)).1 }
    ensures room { core.old.spare ≤ core.new.spare + 10200 }
{
    let Some(address) = address_in(effect.wish) else {
        return retires(core, slot, interrupt, effect, 0, 0);
    };
    match reach(core, slot, address / 32) {
        Reach::Ready(place) => {
            let word = loaded(core, slot, place, effect.wish);
            retires(core, slot, interrupt, effect, word, place)
        }
        Reach::PageFault(page) => trap(core, slot, Cause::Page(page)),
        Reach::Stopped(rule) => Some(Cause::Stopped(rule)),
    }
}

/// The address of private memory that an instruction reads or writes.
fn address_in(wish: Wish) -> Option<u32>
    requires { IsInRange wish }
    ensures value { result ≡ address_in_of wish }
    ensures low { IfSome result (λ address. address < 2 ^ 20) }
{
    match wish {
        Wish::Load { address, .. } | Wish::Store { address, .. } => Some(address),
        _ => None,
    }
}

/// The word that a load is made of, where its line is ready at a place; 0 where nothing is loaded.
fn loaded<V: VersionStore>(core: &Core<V>, slot: u8, place: u32, wish: Wish) -> u32
    requires some { 1 ≤ slot }
    requires place { IsPlaceOf core.now.core.ways slot place }
    ensures { result ≡ word_loaded (way_at core.now.core.ways place).bytes wish }
{
    lines::word_loaded(core.cache.bytes(place), wish)
}
