//! Runs of the whole machine with one guest, over either kind of version store.

ghost use Rattle.std.specs.Prelude.{◌≡◌, None, IfOk};

use cli_runs::{GuestImage, GuestImageList, frames_of};
use image_sealer::seal;
use power_on::power_on;
use session_table::SlotState;
use std::alloc::Global;
use xom_base::{
    ByteList, ImageId, Interrupts, Key256, NoMemory, Op, PlainImage, PokeList, Schedule,
};
use xom_machine::{Chunk, Kernel, Machine, View, run};
use xom_model::outcome::{RunEnd, Turn};
use xom_owners::Owner;
use xom_versions::VersionStore;

const MACHINE: Key256 = Key256([1; 32]);

const IMAGE: Key256 = Key256([2; 32]);

const ID: ImageId = ImageId([3; 16]);

/// `lw $8, 256($0)`, `addiu $8, $8, 1`, `sw $8, 256($0)`, `j 0`, `nop`: goes round in two cached lines.
const LOOP: [u8; 20] = [
    0x8c, 8, 1, 0, 0x25, 8, 0, 1, 0xac, 8, 1, 0, 8, 0, 0, 0, 0, 0, 0, 0,
];

/// What is timed.
#[derive(Clone, Copy)]
pub enum Task {
    /// Installs of a guest that is killed at once.
    Installs,
    /// Events of which all but the first three are steps of a guest whose lines are cached.
    Hits,
}

/// Does a task with guest 1.
#[derive(Drop)]
struct Doer {
    task: Task,
    mapped: bool,
}

impl Kernel for Doer {
    ghost told = { λ k seen. None };

    fn next(&mut self, view: &View, _chunk: &mut Chunk) -> Turn {
        Turn::Do(match (view.slot(1).state, self.task) {
            (SlotState::Free, _) => Op::Install {
                slot: 1,
                envelope: 131_072,
                area: 262_144,
            },
            (_, Task::Installs) => Op::Kill { slot: 1 },
            (_, Task::Hits) if !self.mapped => {
                self.mapped = true;
                Op::Map {
                    slot: 1,
                    page: 0,
                    frame: 17,
                }
            }
            (_, Task::Hits) => Op::Enter { slot: 1 },
        })
    }
}

/// How many entries a run of this task records, so many times.
pub fn entries<V: VersionStore>(alloc: Global, task: Task, count: u64) -> Result<u64, NoMemory> {
    let mut machine: Machine<V> = machine_with_guest(alloc)?;
    let budget = match task {
        Task::Installs => 2 * count.min(1 << 40),
        Task::Hits => count.min(1 << 40),
    };
    let mut doer = Doer {
        task,
        mapped: false,
    };
    let schedule = Schedule {
        interrupts: Interrupts::Never,
        pokes: PokeList::new(alloc),
    };
    let mut chunk = Chunk::new(alloc)?;
    match run(&mut machine, &mut doer, &schedule, budget, &mut chunk) {
        RunEnd::NoMemory => Err(NoMemory),
        _ => Ok(machine.journal().len()),
    }
}

/// The machine at power-on, with the sealed guest in RAM from frame 16 on.
fn machine_with_guest<V: VersionStore>(alloc: Global) -> Result<Machine<V>, NoMemory>
    ensures { IfOk result (λ m. m.state.events ≡ 0) }
{
    let sealed = seal(alloc, &owner(alloc)?, &MACHINE)?;
    let image = GuestImage {
        envelope: sealed.envelope,
        lines: sealed.lines,
    };
    if frames_of(&image) > 100 {
        return Err(NoMemory);
    }
    let mut guests = GuestImageList::new(alloc);
    guests.push(image)?;
    power_on(alloc, &MACHINE, 1, 160, None, &guests)
}

fn owner(alloc: Global) -> Result<Owner, NoMemory> {
    Ok(Owner {
        plain: PlainImage {
            entry: 0,
            bytes: ByteList::from_vec(Vec::from_slice(alloc, &LOOP)?),
        },
        key: IMAGE,
        id: ID,
    })
}
