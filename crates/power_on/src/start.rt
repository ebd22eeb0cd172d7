ghost use Rattle.std.specs.Prelude.{◌≡◌, ◌≤◌, ◌*◌, ◌<◌, ◌^◌, List, IfOk, length, option_map};
ghost use Rattle.xom_base.specs.Frames.{frame_size};
ghost use Rattle.xom_owners.specs.declared.owner.Owner.{Owner};
ghost use Rattle.line_ram.specs.Bytes.{ram_with_bytes};
ghost use Rattle.xom_model.specs.Holds.{Holds};
ghost use Rattle.cli_runs.specs.Places.{FitsAll, first_frame};
ghost use Rattle.power_on.specs.Start.{first_record, kernel_bytes, null_entry as null_entry_of, ram_of_whole, whole_with_ram};

use crate::guests::put_guests;
use crate::loading::put;
use cli_runs::GuestImageList;
use std::alloc::Global;
use xom_base::{Key256, NoMemory, PlainImage};
use xom_machine::Machine;
use xom_versions::VersionStore;

/// The machine before the first event of a run, with so many frames of RAM. The image of a kernel
/// stands from address 0 on, and the null pair at its entry; the guests stand from frame 16 on, one
/// behind the other: a frame with the envelope at its start, then a frame for each page of lines, each
/// line where the machine looks for it. All else is 0. It costs time linear in RAM and the images.
pub fn power_on<V: VersionStore>(
    alloc: Global,
    machine: &Key256,
    boot: u64,
    frames: u32,
    kernel: Option<&PlainImage>,
    guests: &GuestImageList,
) -> Result<Machine<V>, NoMemory>
    requires few { 4 ≤ frames }
    requires many { frames ≤ 8192 }
    requires kernel { length (kernel_bytes (option_map (λ image. image.now) kernel)) ≤ frames * frame_size }
    requires guests { FitsAll frames first_frame guests.now }
    ensures start { IfOk result (λ m. m ≡ record { state = first_record V.versions machine.now boot frames (option_map (λ image. image.now) kernel.entry) guests.now; spare = 0 }) }

    // What the machine keeps of each guest holds then, whoever the owners are.
    ensures holds { IfOk result (λ m. (owners : List Owner) → Holds V.Stands owners m.state.core) }
{
    loaded(alloc, machine, boot, frames, kernel, guests)
}

/// The machine with all bytes in RAM.
fn loaded<V: VersionStore>(
    alloc: Global,
    machine: &Key256,
    boot: u64,
    frames: u32,
    kernel: Option<&PlainImage>,
    guests: &GuestImageList,
) -> Result<Machine<V>, NoMemory>
    requires few { 4 ≤ frames }
    requires many { frames ≤ 8192 }
    requires kernel { length (kernel_bytes (option_map (λ image. image.now) kernel)) ≤ frames * frame_size }
    requires guests { FitsAll frames first_frame guests.now }
    ensures { IfOk result (λ m. m ≡ record { state = first_record V.versions machine.now boot frames (option_map (λ image. image.now) kernel.entry) guests.now; spare = 0 }) }
{
    let mut loaded = Machine::new(alloc, frames, machine, boot, null_entry(kernel))?;
    put_kernel(&mut loaded, kernel);
    put_guests(&mut loaded, frames, guests.as_slice());
    Ok(loaded)
}

/// Puts the image of a kernel into RAM from address 0 on, if there is one.
fn put_kernel<V: VersionStore>(machine: &mut Machine<V>, kernel: Option<&PlainImage>)
    requires first { machine.old.state.events ≡ 0 }
    requires holds { length (kernel_bytes (option_map (λ image. image.now) kernel)) ≤ length (ram_of_whole machine.old) }
    ensures bytes { machine.new ≡ whole_with_ram machine.old (ram_with_bytes (ram_of_whole machine.old) 0 (kernel_bytes (option_map (λ image. image.now) kernel.entry))) }
    ensures size { length (ram_of_whole machine.new) ≡ length (ram_of_whole machine.old) }
{
    if let Some(image) = kernel {
        put(machine, 0, image.bytes.as_slice());
    }
}

/// Where null code begins.
fn null_entry(kernel: Option<&PlainImage>) -> u32
    ensures { result ≡ null_entry_of (option_map (λ image. image.now) kernel.entry) }
{
    match kernel {
        Some(image) => image.entry,
        None => 0,
    }
}
