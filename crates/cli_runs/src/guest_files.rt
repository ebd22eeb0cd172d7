ghost use Rattle.std.specs.Prelude.{◌≡◌, ◌+◌, ◌≤◌, IfOk, string_bytes};
ghost use Rattle.cli_base.specs.Inputs.{InputAnswers};
ghost use Rattle.cli_base.specs.Readings.{FilesGive};
ghost use Rattle.cli_runs.specs.Places.{FitsAll, first_frame, frames_of_guest};
ghost use Rattle.cli_runs.specs.GuestFiles.{guest_and_input, guest_image_at, guest_image_of, guests_and_inputs, placed_at, placed_guest_of, read_input};

use crate::guest_image::{FIRST_FRAME, GuestImage, GuestImageList, fits_from, frames_of};
use cli_base::{InputFault, InputStop, Stop, fetch, of_file};
use std::alloc::Global;
use xom_base::ByteList;
use xom_image::{ImageFault, read_sealed};
use xom_io::{Files, Name};
use xom_script::{GuestFile, GuestFileList};

/// The most bytes of a sealed image file.
const SEALED_LIMIT: u64 = 2_097_248;

/// The most bytes of an input file.
const INPUT_LIMIT: u64 = 1_048_576;

/// The images of the guests of these lines, which are read one after the other with their inputs, in a
/// RAM of so many frames.
pub fn guests<F: Files>(
    alloc: Global,
    files: &mut F,
    run: &String,
    frames: u32,
    lines: &GuestFileList,
) -> Result<GuestImageList, Stop>
    ensures gives { FilesGive (F.held files.old) (λ held. guests_and_inputs held (string_bytes run.now) frames first_frame lines.now)
        (F.reads files.old) (F.reads files.new) result }
    ensures fit { IfOk result (FitsAll frames first_frame) }
    ensures names { F.held files.new ≡ F.held files.old }
    ensures writes { F.writes files.new ≡ F.writes files.old }
{
    let mut images = GuestImageList::new(alloc);
    let mut frame = FIRST_FRAME;
    for line in lines.as_slice() {
        let image = guest(alloc, files, run, frames, frame, line)?;
        frame += frames_of(&image) as u32;
        images.push(image)?;
    }
    Ok(images)
}

/// The image of the guest of a line, which is to stand from this frame on. Its input is read behind it.
#[tactic(auto, unfolding(crate::specs::GuestFiles::guest_and_input))]
fn guest<F: Files>(
    alloc: Global,
    files: &mut F,
    run: &String,
    frames: u32,
    frame: u32,
    line: &GuestFile,
) -> Result<GuestImage, Stop>
    ensures gives { FilesGive (F.held files.old) (λ held. guest_and_input held (string_bytes run.now) frames frame line.now)
        (F.reads files.old) (F.reads files.new) result }
    ensures fits { IfOk result (λ image. frame + frames_of_guest image ≤ frames) }
    ensures names { F.held files.new ≡ F.held files.old }
    ensures writes { F.writes files.new ≡ F.writes files.old }
{
    let image = placed_guest(alloc, files, run, frames, frame, line)?;
    input(files, &line.input)?;
    Ok(image)
}

/// The image of the guest of a line, where it lies in RAM from this frame on.
#[tactic(auto, unfolding(crate::specs::GuestFiles::placed_guest_of))]
fn placed_guest<F: Files>(
    alloc: Global,
    files: &mut F,
    run: &String,
    frames: u32,
    frame: u32,
    line: &GuestFile,
) -> Result<GuestImage, Stop>
    ensures gives { FilesGive (F.held files.old) (λ held. placed_guest_of held (string_bytes run.now) frames frame line.now)
        (F.reads files.old) (F.reads files.new) result }
    ensures fits { IfOk result (λ image. frame + frames_of_guest image ≤ frames) }
    ensures names { F.held files.new ≡ F.held files.old }
    ensures writes { F.writes files.new ≡ F.writes files.old }
{
    let image = guest_image(alloc, files, line.sealed.as_string())?;
    of_file(run, placed(frames, frame, line.line, image))
}

/// The image of the sealed image file of this name.
#[tactic(auto, unfolding(crate::specs::GuestFiles::guest_image_of))]
fn guest_image<F: Files>(alloc: Global, files: &mut F, name: &String) -> Result<GuestImage, Stop>
    ensures gives { FilesGive (F.held files.old) (λ held. guest_image_of held (string_bytes name.now))
        (F.reads files.old) (F.reads files.new) result }
    ensures names { F.held files.new ≡ F.held files.old }
    ensures writes { F.writes files.new ≡ F.writes files.old }
{
    let bytes = fetch(files, name, SEALED_LIMIT)?;
    of_file(name, guest_image_in(alloc, &bytes))
}

/// The image of the bytes of a sealed image file.
#[tactic(auto, unfolding(crate::specs::GuestFiles::guest_image_at))]
fn guest_image_in(alloc: Global, bytes: &ByteList) -> Result<GuestImage, InputStop>
    ensures { InputAnswers (guest_image_at bytes.now) result }
{
    match read_sealed(alloc, bytes) {
        Ok(image) => {
            let envelope = image.envelope;
            Ok(GuestImage {
                envelope,
                lines: image.lines,
            })
        }
        Err(ImageFault::Bad(offset)) => Err(InputStop::Fault(InputFault::BadByte(offset))),
        Err(ImageFault::NoMemory) => Err(InputStop::NoMemory),
    }
}

/// The guest of this line, where it lies in RAM.
fn placed(frames: u32, frame: u32, line: u64, image: GuestImage) -> Result<GuestImage, InputStop>
    ensures value { InputAnswers (placed_at frames frame line image) result }
    ensures fits { IfOk result (λ placed. frame + frames_of_guest placed ≤ frames) }
{
    if fits_from(frames, frame, &image) {
        Ok(image)
    } else {
        Err(InputStop::Fault(InputFault::BadLine(line)))
    }
}

/// Reads the input of a guest, where it names one. It isn't kept.
fn input<F: Files>(files: &mut F, name: &Option<Name>) -> Result<(), Stop>
    ensures gives { FilesGive (F.held files.old) (λ held. read_input held name.now)
        (F.reads files.old) (F.reads files.new) result }
    ensures names { F.held files.new ≡ F.held files.old }
    ensures writes { F.writes files.new ≡ F.writes files.old }
{
    if let Some(name) = name {
        let _bytes = fetch(files, name.as_string(), INPUT_LIMIT)?;
    }
    Ok(())
}
