ghost use Rattle.std.specs.Prelude.{◌≡◌};
ghost use Rattle.mips_effect.specs.Effects.{branches, branches_linked, effect_going_on, jumps, sets, sets_or_overflows, way, wishes, write_of_register, writes_only};

use crate::effects::Effect;
use crate::sums::{after, target};
use crate::{Asked, Wish};
use xom_base::{Op, OwnFault, Writes};

/// Only a register is set, $0 to no effect.
pub fn sets(reg: u8, value: u32, following: u32) -> Result<Effect, OwnFault>
    ensures { result ≡ sets reg value following }
{
    goes_on(set(reg, value), Wish::Nothing, following)
}

/// A register is set, or the sum overflowed.
pub fn sets_or_overflows(reg: u8, value: Option<u32>, following: u32) -> Result<Effect, OwnFault>
    ensures { result ≡ sets_or_overflows reg value following }
{
    match value {
        Some(value) => sets(reg, value, following),
        None => Err(OwnFault::Overflow),
    }
}

/// Only cells are written.
pub fn writes_only(writes: Writes, following: u32) -> Result<Effect, OwnFault>
    ensures { result ≡ writes_only writes following }
{
    goes_on(writes, Wish::Nothing, following)
}

/// Only a wish is made.
pub fn wishes(wish: Wish, following: u32) -> Result<Effect, OwnFault>
    ensures { result ≡ wishes wish following }
{
    goes_on(Writes::Nothing, wish, following)
}

/// Null code wishes an operation.
pub fn does(op: Op, following: u32) -> Result<Effect, OwnFault>
    ensures { result ≡ wishes (Wish.Do op) following }
{
    wishes(Wish::Do(op), following)
}

/// Null code asks for what a register is told.
pub fn asks(reg: u8, what: Asked, following: u32) -> Result<Effect, OwnFault>
    ensures { result ≡ wishes (Wish.Ask reg what) following }
{
    wishes(Wish::Ask { reg, what }, following)
}

/// Cells are written, and behind the instruction that follows comes this address.
pub fn jumps(writes: Writes, to: u32, following: u32) -> Result<Effect, OwnFault>
    ensures { result ≡ jumps writes to following }
{
    Ok(Effect {
        writes,
        wish: Wish::Nothing,
        pc: following,
        npc: to,
    })
}

/// A branch, to its target where it is taken.
pub fn branches(taken: bool, imm: u16, following: u32) -> Result<Effect, OwnFault>
    ensures { result ≡ branches taken imm following }
{
    jumps(Writes::Nothing, way(taken, imm, following), following)
}

/// A branch with its link in $31, taken or not.
pub fn branches_linked(taken: bool, imm: u16, following: u32) -> Result<Effect, OwnFault>
    ensures { result ≡ branches_linked taken imm following }
{
    let link = set(31, after(following));
    jumps(link, way(taken, imm, following), following)
}

/// The write of a register, where one to $0 is dropped.
pub fn set(reg: u8, value: u32) -> Writes
    ensures { result ≡ write_of_register reg value }
{
    if reg == 0 {
        Writes::Nothing
    } else {
        Writes::One { reg, value }
    }
}

/// Where a branch goes behind the instruction that follows.
fn way(taken: bool, imm: u16, following: u32) -> u32
    ensures { result ≡ way taken imm following }
{
    if taken {
        target(following, imm)
    } else {
        after(following)
    }
}

/// The pair goes on.
fn goes_on(writes: Writes, wish: Wish, following: u32) -> Result<Effect, OwnFault>
    ensures { result ≡ effect_going_on writes wish following }
{
    Ok(Effect {
        writes,
        wish,
        pc: following,
        npc: after(following),
    })
}
