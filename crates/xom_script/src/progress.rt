ghost use Rattle.std.specs.Prelude.{◌≡◌, ℕ, IfOk, length, nat_lt};
ghost use Rattle.xom_base.specs.Options.{where_holds};
ghost use Rattle.xom_script.specs.RunOrder.{after_files, after_line, draft_with_guest, fits_ram, has_id, has_room, is_whole, last_event, run_file, takes_owner, takes_poke, with_owner, with_poke};
ghost use Rattle.xom_script.specs.declared.progress.Progress.TheVariants as progress;

use crate::run_file::{GuestFile, GuestFileList, KernelLine, OwnerFile, OwnerFileList, RunFile};
use crate::run_line::RunLine;
use std::alloc::Global;
use xom_base::{ImageId, Interrupts, Key256, NoMemory, Poke, PokeList, Schedule};

/// The files of a run, and the lines before them, each as `RunFile` has it.
#[derive(Drop)]
pub struct Draft {
    pub machine: Key256,
    pub boot: u64,
    pub frames: u32,
    pub budget: u64,
    pub owners: OwnerFileList,
    pub guests: GuestFileList,
}

/// What the lines so far say, and with it which line may come next.
#[derive(Drop)]
pub enum Progress {
    /// No line stands before.
    Start,
    /// The last line is `machine`.
    Keyed {
        machine: Key256,
    },
    /// The last line is `boot`.
    Booted {
        machine: Key256,
        boot: u64,
    },
    /// The last line is `frames`.
    Framed {
        machine: Key256,
        boot: u64,
        frames: u32,
    },
    /// The last line is `budget`, `owner` or `guest`.
    Files(Draft),
    /// The last line is `kernel`, of this number.
    Kernel {
        draft: Draft,
        kernel: KernelLine,
        line: u64,
    },
    /// The last line is `interrupt` or `poke`.
    Whole(RunFile),
}

impl Progress {
    /// Whether the text may end here.
    pub fn is_whole(&self) -> bool
        ensures { result ≡ is_whole self.now }
    {
        matches!(self, Progress::Whole(_))
    }
}

/// What stands after the line of this number. None where it may not stand there.
#[tactic(auto, unfolding(crate::specs::RunOrder::after_line))]
pub fn after_line(
    alloc: Global,
    before: Progress,
    number: u64,
    line: RunLine,
) -> Result<Option<Progress>, NoMemory>
    ensures { IfOk result (λ after. after ≡ after_line before number line) }
{
    match before {
        Progress::Start => Ok(after_start(line)),
        Progress::Keyed { machine } => Ok(after_machine(machine, line)),
        Progress::Booted { machine, boot } => Ok(after_boot(machine, boot, line)),
        Progress::Framed {
            machine,
            boot,
            frames,
        } => Ok(after_frames(alloc, machine, boot, frames, line)),
        Progress::Files(draft) => after_files(draft, number, line),
        Progress::Kernel {
            draft,
            kernel,
            line: kernel_line,
        } => Ok(after_kernel(alloc, draft, kernel, kernel_line, line)),
        Progress::Whole(file) => after_whole(file, line),
    }
}

#[tactic(auto, unfolding(crate::specs::RunOrder::after_line))]
fn after_start(line: RunLine) -> Option<Progress>
    ensures { (n : ℕ) → result ≡ after_line progress.Start n line }
{
    match line {
        RunLine::Machine(machine) => Some(Progress::Keyed { machine }),
        _ => None,
    }
}

#[tactic(auto, unfolding(crate::specs::RunOrder::after_line))]
fn after_machine(machine: Key256, line: RunLine) -> Option<Progress>
    ensures { (n : ℕ) → result ≡ after_line (progress.Keyed machine) n line }
{
    match line {
        RunLine::Boot(boot) => Some(Progress::Booted { machine, boot }),
        _ => None,
    }
}

#[tactic(auto, unfolding(crate::specs::RunOrder::after_line))]
fn after_boot(machine: Key256, boot: u64, line: RunLine) -> Option<Progress>
    ensures { (n : ℕ) → result ≡ after_line (progress.Booted machine boot) n line }
{
    match line {
        RunLine::Frames(frames) => Some(Progress::Framed {
            machine,
            boot,
            frames,
        }),
        _ => None,
    }
}

#[tactic(auto, unfolding(crate::specs::RunOrder::after_line))]
fn after_frames(
    alloc: Global,
    machine: Key256,
    boot: u64,
    frames: u32,
    line: RunLine,
) -> Option<Progress>
    ensures { (n : ℕ) → result ≡ after_line (progress.Framed machine boot frames) n line }
{
    match line {
        RunLine::Budget(budget) => Some(Progress::Files(Draft {
            machine,
            boot,
            frames,
            budget,
            owners: OwnerFileList::new(alloc),
            guests: GuestFileList::new(alloc),
        })),
        _ => None,
    }
}

#[tactic(auto, unfolding(crate::specs::RunOrder::after_files))]
fn after_files(draft: Draft, number: u64, line: RunLine) -> Result<Option<Progress>, NoMemory>
    ensures { IfOk result (λ after. after ≡ after_files draft number line) }
{
    match line {
        RunLine::Owner(owner) => after_owner(draft, owner),
        RunLine::Guest { sealed, input } => after_guest(
            draft,
            GuestFile {
                line: number,
                sealed,
                input,
            },
        ),
        RunLine::Kernel(kernel) => Ok(after_kernel_line(draft, kernel, number)),
        _ => Ok(None),
    }
}

fn after_owner(draft: Draft, owner: OwnerFile) -> Result<Option<Progress>, NoMemory>
    ensures { IfOk result (λ after. after ≡ where_holds (takes_owner draft owner.id) (progress.Files (with_owner draft owner))) }
{
    let mut draft = draft;
    let takes = draft.guests.is_empty()
        && draft.owners.len() < 16
        && !has_id(&owner.id, draft.owners.as_slice());
    if !takes {
        return Ok(None);
    }
    draft.owners.push(owner)?;
    Ok(Some(Progress::Files(draft)))
}

fn after_guest(draft: Draft, guest: GuestFile) -> Result<Option<Progress>, NoMemory>
    ensures { IfOk result (λ after. after ≡ where_holds (nat_lt (length draft.guests) 16) (progress.Files (draft_with_guest draft guest))) }
{
    let mut draft = draft;
    if draft.guests.len() >= 16 {
        return Ok(None);
    }
    draft.guests.push(guest)?;
    Ok(Some(Progress::Files(draft)))
}

fn after_kernel_line(draft: Draft, kernel: KernelLine, number: u64) -> Option<Progress>
    ensures { result ≡ where_holds (has_room kernel draft.frames (length draft.guests)) (progress.Kernel draft kernel number) }
{
    if has_room(&kernel, draft.frames, draft.guests.len()) {
        Some(Progress::Kernel {
            draft,
            kernel,
            line: number,
        })
    } else {
        None
    }
}

#[tactic(auto, unfolding(crate::specs::RunOrder::after_line))]
fn after_kernel(
    alloc: Global,
    draft: Draft,
    kernel: KernelLine,
    kernel_line: u64,
    line: RunLine,
) -> Option<Progress>
    ensures { (n : ℕ) → result ≡ after_line (progress.Kernel draft kernel kernel_line) n line }
{
    match line {
        RunLine::Interrupt(interrupts) => {
            Some(whole(alloc, draft, kernel, kernel_line, interrupts))
        }
        _ => None,
    }
}

/// The run under these interrupts, before its writes of the bus.
fn whole(
    alloc: Global,
    draft: Draft,
    kernel: KernelLine,
    kernel_line: u64,
    interrupts: Interrupts,
) -> Progress
    ensures { result ≡ progress.Whole (run_file draft kernel kernel_line interrupts) }
{
    let pokes = PokeList::new(alloc);
    Progress::Whole(RunFile {
        machine: draft.machine,
        boot: draft.boot,
        frames: draft.frames,
        budget: draft.budget,
        owners: draft.owners,
        guests: draft.guests,
        kernel,
        kernel_line,
        schedule: Schedule { interrupts, pokes },
    })
}

#[tactic(auto, unfolding(crate::specs::RunOrder::after_line))]
fn after_whole(file: RunFile, line: RunLine) -> Result<Option<Progress>, NoMemory>
    ensures { (n : ℕ) → IfOk result (λ after. after ≡ after_line (progress.Whole file) n line) }
{
    match line {
        RunLine::Poke(poke) => after_poke(file, poke),
        _ => Ok(None),
    }
}

fn after_poke(file: RunFile, poke: Poke) -> Result<Option<Progress>, NoMemory>
    ensures { IfOk result (λ after. after ≡ where_holds (takes_poke file poke) (progress.Whole (with_poke file poke))) }
{
    let mut file = file;
    let pokes = file.schedule.pokes.as_slice();
    if last_event(pokes) >= poke.event || !fits_ram(&poke, file.frames) {
        return Ok(None);
    }
    file.schedule.pokes.push(poke)?;
    Ok(Some(Progress::Whole(file)))
}

fn has_id(id: &ImageId, owners: &[OwnerFile]) -> bool
    ensures { result ≡ has_id id.now owners.now }
{
    owners.iter().any(|owner| owner.id.0 == id.0)
}

/// Whether so many frames are enough for so many guests.
fn has_room(kernel: &KernelLine, frames: u32, guests: usize) -> bool
    ensures { result ≡ has_room kernel.now frames guests }
{
    match kernel {
        KernelLine::Script(_) => true,
        KernelLine::Image(_) => true,
        KernelLine::Xomos(pages) => guests as u64 <= u64::from(frames) / (52 + u64::from(*pages)),
    }
}

/// The number of the last event that is a write of the bus, 0 before the first.
fn last_event(pokes: &[Poke]) -> u64
    ensures { result ≡ last_event pokes.now }
{
    match pokes.last() {
        Some(poke) => poke.event,
        None => 0,
    }
}

/// Whether the write lies inside a RAM of so many frames.
fn fits_ram(poke: &Poke, frames: u32) -> bool
    ensures { result ≡ fits_ram poke.now frames }
{
    let size = u64::from(frames) * 8192;
    let length = poke.bytes.len() as u64;
    length <= size && u64::from(poke.address) <= size - length
}
