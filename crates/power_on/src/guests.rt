ghost use Rattle.std.specs.Prelude.{◌≡◌, ◌+◌, ◌*◌, ◌≤◌, length};
ghost use Rattle.xom_base.specs.Frames.{frame_size};
ghost use Rattle.cli_runs.specs.Places.{FitsAll, first_frame, frames_of_guest as frames_of_image};
ghost use Rattle.power_on.specs.Start.{ram_of_whole, ram_with_guest, whole_with_ram, with_guests};

use crate::lines::put_lines;
use crate::loading::put;
use cli_runs::{FIRST_FRAME, GuestImage, frames_of};
use line_ram::LineRam;
use xom_machine::Machine;
use xom_versions::VersionStore;

/// Puts guests into RAM, one behind the other. It costs time linear in the bytes of their images.
pub fn put_guests<V: VersionStore>(machine: &mut Machine<V>, frames: u32, images: &[GuestImage])
    requires first { machine.old.state.events ≡ 0 }
    requires few { frames ≤ 8192 }
    requires size { length (ram_of_whole machine.old) ≡ frames * frame_size }
    requires fit { FitsAll frames first_frame images.now }
    ensures bytes { machine.new ≡ whole_with_ram machine.old (with_guests (ram_of_whole machine.old) first_frame images.now) }
{
    let mut frame = FIRST_FRAME;
    for image in images {
        frame = put_guest(machine, frames, frame, image);
    }
}

/// Puts a guest into RAM from this frame on, and gives the frame behind it.
fn put_guest<V: VersionStore>(
    machine: &mut Machine<V>,
    frames: u32,
    frame: u32,
    image: &GuestImage,
) -> u32
    requires first { machine.old.state.events ≡ 0 }
    requires few { frames ≤ 8192 }
    requires size { length (ram_of_whole machine.old) ≡ frames * frame_size }
    requires fits { frame + frames_of_image image.now ≤ frames }
    ensures behind { result ≡ frame + frames_of_image image.now }
    ensures bytes { machine.new ≡ whole_with_ram machine.old (ram_with_guest (ram_of_whole machine.old) frame image.now) }
    ensures size { length (ram_of_whole machine.new) ≡ length (ram_of_whole machine.old) }
{
    put(machine, frame * LineRam::FRAME, &image.envelope);
    put_lines(machine, frame + 1, image.lines.as_slice());
    frame + frames_of(image) as u32
}
