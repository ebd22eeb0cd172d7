ghost use Rattle.std.specs.Prelude.{◌≡◌, ◌≤◌, ◌<◌, ◌+◌, ◌^◌, ◌==◌, ◌∷◌, false, true, length, map, option_copied, All, IfSome};
ghost use Rattle.std.specs.List.{list_any};
ghost use Rattle.std.specs.List.Sorted.{IsStrictlyIncreasing};
ghost use Rattle.xom_base.specs.declared.event.Event.TheVariants as event;
ghost use Rattle.xom_model.specs.Event.{chunk_size, fits as fits_of};
ghost use Rattle.xom_model.specs.Run.{AreInterrupts, IsPoke, IsSchedule, event_number, event_of as event_of_turn, is_flagged as is_flagged_at, poke_at};
ghost use Rattle.xom_machine.specs.Runs.{IsNext, bytes_of_event};

use crate::{Chunk, Kernel, Machine};
use xom_base::{Event, Interrupts, Poke, Schedule};
use xom_model::outcome::Turn;
use xom_versions::VersionStore;

/// The next event of a run in which so many guest events were made before, with its bytes first in
/// the chunk: the write of the bus that is listed for its number; else of the guest where one runs,
/// with the interrupt line set by its number among guest events; else the kernel's turn, where a
/// length above 8,192 is taken as 8,192. The schedule is looked up by halves.
pub fn next_event<V: VersionStore, K: Kernel>(
    machine: &Machine<V>,
    kernel: &mut K,
    schedule: &Schedule,
    guests: u64,
    chunk: &mut Chunk,
) -> Event
    requires going { machine.now.state.halted ≡ false }
    requires schedule { IsSchedule schedule.now }
    requires few { guests < 2 ^ 63 }
    ensures fits { fits_of machine.now.state result ≡ true }
    ensures next { IsNext K.told schedule.now guests machine.now.state kernel.old result chunk.new kernel.new }
{
    if let Some(poke) = poke_for(schedule.pokes.as_slice(), machine.events() + 1) {
        return bring(poke, chunk);
    }
    if machine.is_guest_running() {
        return Event::Guest {
            interrupt: is_flagged(&schedule.interrupts, guests + 1),
        };
    }
    event_of(kernel.next(&machine.view(), chunk))
}

/// The event that a turn asks for.
fn event_of(turn: Turn) -> Event
    ensures { result ≡ event_of_turn turn }
{
    match turn {
        Turn::Do(op) => Event::Do(op),
        Turn::Write { address, length } => Event::Write {
            address,
            length: length.min(Chunk::SIZE),
        },
        Turn::Null => Event::Null,
    }
}

/// The event of a write of the bus, with its bytes first in the chunk.
fn bring(poke: &Poke, chunk: &mut Chunk) -> Event
    requires { IsPoke poke.now }
    ensures event { result ≡ event.Poke poke.now.address (length poke.now.bytes) }
    ensures bytes { bytes_of_event result chunk.new ≡ poke.now.bytes }
    ensures few { length poke.now.bytes ≤ chunk_size }
{
    let bytes = poke.bytes.as_slice();
    chunk.put(0, bytes);
    Event::Poke {
        address: poke.address,
        length: bytes.len() as u32,
    }
}

/// The write of the bus at the event of a number, if one is listed.
fn poke_for(pokes: &[Poke], number: u64) -> Option<&Poke>
    requires pokes { All IsPoke pokes.now }
    requires ascending { IsStrictlyIncreasing (map event_number pokes.now) }
    ensures value { option_copied result ≡ poke_at pokes.now number }
    ensures listed { IfSome result (λ poke. IsPoke poke.now) }
{
    match pokes.binary_search_by_key(&number, |poke| poke.event) {
        Ok(i) => Some(&pokes[i]),
        Err(_) => None,
    }
}

/// Whether the interrupt line is set at the guest event of a number.
fn is_flagged(interrupts: &Interrupts, number: u64) -> bool
    requires { AreInterrupts interrupts.now }
    ensures { result ≡ is_flagged_at interrupts.now number }
{
    match interrupts {
        Interrupts::Never => false,
        Interrupts::Every(n) => number % *n == 0,
        Interrupts::At(numbers) => is_among(numbers.as_slice(), number),
    }
}

fn is_among(numbers: &[u64], number: u64) -> bool
    requires { IsStrictlyIncreasing numbers.now }
    ensures { result ≡ list_any (λ m. m == number) numbers.now }
{
    numbers.binary_search(&number).is_ok()
}
