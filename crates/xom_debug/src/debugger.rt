ghost use Rattle.std.specs.Prelude.{◌≡◌, ◌<◌, ◌^◌, All, IfOk, IfSome};
ghost use Rattle.xom_model.specs.Run.{IsSchedule};
ghost use Rattle.xom_model.specs.Seen.{view_of};
ghost use Rattle.xom_debug.specs.Commands.{CommandKeepsRules};
ghost use Rattle.xom_debug.specs.DebugTexts.{debug_text};
ghost use Rattle.xom_debug.specs.Moments.{moments_from};
ghost use Rattle.xom_debug.specs.Sessions.{Debugs, IsDebugged};

use crate::command::CommandList;
use crate::printing::show;
use crate::session::Session;
use std::alloc::Global;
use xom_base::{ByteList, NoMemory, Schedule};
use xom_machine::{Chunk, Kernel, Machine};
use xom_versions::VersionStore;

/// Runs a kernel over a machine from its first event on under the commands of a debugger, and gives what
/// they print. Each event is made by `next_event`, `reserve_event` and `step`. The run ends with the kernel's
/// Halt, with a fault of null code, or at so many events; commands behind its end make no event. It
/// costs what the events cost, beside time linear in the text.
pub fn debug<V: VersionStore, K: Kernel>(
    alloc: Global,
    machine: &mut Machine<V>,
    kernel: &mut K,
    schedule: &Schedule,
    budget: u64,
    commands: &CommandList,
    chunk: &mut Chunk,
) -> Result<ByteList, NoMemory>
    requires first { machine.old.state.events ≡ 0 }
    requires schedule { IsSchedule schedule.now }
    requires few { budget < 2 ^ 63 }
    requires rules { All CommandKeepsRules commands.now }

    // Events that may come, each in its turn, were made, and the text is that of the commands over their
    // moments, and over any that might follow, unless the run is over.
    ensures made { IfOk result (λ text. IsDebugged schedule.now V.versions budget commands.now machine.old.state machine.new.state text) }

    // Where the kernel tells its turns, the text is that of the commands over the run that they make.
    ensures told { IfOk result (λ text. IfSome (moments_from V.versions K.told schedule.now budget 0 machine.old.state kernel.old) (λ run. text ≡ debug_text commands.now (view_of machine.old.state) run)) }
{
    debugged(alloc, machine, kernel, schedule, budget, commands, chunk)
}

/// The same, by what was made of the kernel's state too.
fn debugged<V: VersionStore, K: Kernel>(
    alloc: Global,
    machine: &mut Machine<V>,
    kernel: &mut K,
    schedule: &Schedule,
    budget: u64,
    commands: &CommandList,
    chunk: &mut Chunk,
) -> Result<ByteList, NoMemory>
    requires first { machine.old.state.events ≡ 0 }
    requires schedule { IsSchedule schedule.now }
    requires few { budget < 2 ^ 63 }
    requires rules { All CommandKeepsRules commands.now }
    ensures { IfOk result (λ text. Debugs K.told schedule.now V.versions budget commands.now machine.old kernel.old machine.new kernel.new text) }
{
    let mut session = Session::new(alloc)?;
    let mut text = Vec::new(alloc);
    for command in commands.as_slice() {
        session.advance(*command, machine, kernel, schedule, budget, chunk)?;
        show(alloc, &mut text, *command, &machine.view(), &session)?;
    }
    Ok(ByteList::from_vec(text))
}
