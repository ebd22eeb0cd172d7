ghost use Rattle.std.specs.Prelude.{◌≡◌, ◌+◌, ◌*◌, ◌/◌, ◌≤◌, ◌<◌, length};
ghost use Rattle.xom_base.specs.Frames.{frame_size};
ghost use Rattle.line_ram.specs.Bytes.{HoldsFrame, frame_lines, ram_with_line};
ghost use Rattle.power_on.specs.Start.{ram_of_whole, whole_with_ram, with_lines};

use crate::loading::put;
use line_ram::LineRam;
use xom_machine::Machine;
use xom_seal::SealedLine;
use xom_versions::VersionStore;

/// How many lines a frame has.
const FRAME_LINES: u32 = 128;

/// Puts the lines of an image into the frames from this one on. It costs time linear in their number.
pub fn put_lines<V: VersionStore>(machine: &mut Machine<V>, frame: u32, lines: &[SealedLine])
    requires first { machine.old.state.events ≡ 0 }
    requires size { length (ram_of_whole machine.old) ≤ 8192 * frame_size }
    requires holds { (frame + (length lines.now + 127) / frame_lines) * frame_size ≤ length (ram_of_whole machine.old) }
    ensures bytes { machine.new ≡ whole_with_ram machine.old (with_lines (ram_of_whole machine.old) frame 0 lines.now) }
    ensures size { length (ram_of_whole machine.new) ≡ length (ram_of_whole machine.old) }
{
    for (i, line) in lines.iter().enumerate() {
        let number = i as u32;
        put_line(
            machine,
            frame + number / FRAME_LINES,
            number % FRAME_LINES,
            line,
        );
    }
}

/// Puts a line at the place of this index in a frame.
fn put_line<V: VersionStore>(machine: &mut Machine<V>, frame: u32, index: u32, line: &SealedLine)
    requires first { machine.old.state.events ≡ 0 }
    requires low { index < frame_lines }
    requires size { length (ram_of_whole machine.old) ≤ 8192 * frame_size }
    requires holds { HoldsFrame (ram_of_whole machine.old) frame }
    ensures bytes { machine.new ≡ whole_with_ram machine.old (ram_with_line (ram_of_whole machine.old) frame index line.now.ct line.now.tag) }
    ensures size { length (ram_of_whole machine.new) ≡ length (ram_of_whole machine.old) }
{
    let place = frame * LineRam::FRAME + 32 * index;
    put(machine, place, &line.ct);
    put(machine, place + 4096, &line.tag);
}
