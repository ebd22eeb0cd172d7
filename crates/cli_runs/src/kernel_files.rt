ghost use Rattle.std.specs.Prelude.{◌≡◌, IfOk, string_bytes};
ghost use Rattle.cli_base.specs.Inputs.{InputAnswers};
ghost use Rattle.cli_base.specs.Readings.{FilesGive};
ghost use Rattle.cli_runs.specs.KernelFiles.{FitsKernel, kernel_image_at, kernel_image_of, kernel_of_line, script_of};
ghost use Rattle.cli_runs.specs.Places.{kernel_fits};
ghost use Rattle.cli_runs.specs.declared.kernel_file.KernelFile.TheVariants as file;

use crate::kernel_file::KernelFile;
use cli_base::{InputFault, InputStop, Stop, bad, fetch, image, lined, of_file};
use std::alloc::Global;
use xom_base::PlainImage;
use xom_io::Files;
use xom_script::{KernelLine, Script, read_script};

/// The most bytes of a script.
const SCRIPT_LIMIT: u64 = 1_048_576;

/// The most bytes of the image of a kernel.
const KERNEL_LIMIT: u64 = 131_072;

/// How many bytes a frame has.
const FRAME_SIZE: u64 = 8_192;

/// The kernel that the line of this number of the run file names, in a RAM of so many frames.
#[tactic(auto, unfolding(crate::specs::KernelFiles::kernel_of_line))]
pub fn kernel<F: Files>(
    alloc: Global,
    files: &mut F,
    run: &String,
    frames: u32,
    number: u64,
    line: &KernelLine,
) -> Result<KernelFile, Stop>
    ensures gives { FilesGive (F.held files.old) (λ held. kernel_of_line held (string_bytes run.now) frames number line.now)
        (F.reads files.old) (F.reads files.new) result }
    ensures fits { IfOk result (FitsKernel frames) }
    ensures names { F.held files.new ≡ F.held files.old }
    ensures writes { F.writes files.new ≡ F.writes files.old }
{
    match line {
        KernelLine::Script(name) => Ok(KernelFile::Script(script(alloc, files, name.as_string())?)),
        KernelLine::Image(name) => Ok(KernelFile::Image(kernel_image(
            alloc,
            files,
            run,
            frames,
            number,
            name.as_string(),
        )?)),
        KernelLine::Xomos(_) => Err(bad(run, InputFault::NotBuilt)),
    }
}

/// The script of this name.
#[tactic(auto, unfolding(crate::specs::KernelFiles::script_of))]
fn script<F: Files>(alloc: Global, files: &mut F, name: &String) -> Result<Script, Stop>
    ensures gives { FilesGive (F.held files.old) (λ held. script_of held (string_bytes name.now))
        (F.reads files.old) (F.reads files.new) result }
    ensures names { F.held files.new ≡ F.held files.old }
    ensures writes { F.writes files.new ≡ F.writes files.old }
{
    let text = fetch(files, name, SCRIPT_LIMIT)?;
    of_file(name, lined(read_script(alloc, text.as_slice())))
}

/// The image of this name, which is to be a kernel. Its size is looked at behind its grammar.
#[tactic(auto, unfolding(crate::specs::KernelFiles::kernel_image_of))]
fn kernel_image<F: Files>(
    alloc: Global,
    files: &mut F,
    run: &String,
    frames: u32,
    number: u64,
    name: &String,
) -> Result<PlainImage, Stop>
    ensures gives { FilesGive (F.held files.old) (λ held. kernel_image_of held (string_bytes run.now) frames number (string_bytes name.now))
        (F.reads files.old) (F.reads files.new) result }
    ensures fits { IfOk result (λ image. FitsKernel frames (file.Image image)) }
    ensures names { F.held files.new ≡ F.held files.old }
    ensures writes { F.writes files.new ≡ F.writes files.old }
{
    let image = image(alloc, files, name)?;
    of_file(run, fitting(frames, number, image))
}

/// The image of a kernel, where RAM has room for it.
fn fitting(frames: u32, number: u64, image: PlainImage) -> Result<PlainImage, InputStop>
    ensures value { InputAnswers (kernel_image_at frames number image) result }
    ensures fits { IfOk result (λ image. FitsKernel frames (file.Image image)) }
{
    if kernel_fits(frames, &image) {
        Ok(image)
    } else {
        Err(InputStop::Fault(InputFault::BadLine(number)))
    }
}

/// Whether the image of a kernel is small enough, and lies in a RAM of so many frames.
fn kernel_fits(frames: u32, image: &PlainImage) -> bool
    ensures { result ≡ kernel_fits frames image.now }
{
    let size = image.bytes.len() as u64;
    size <= KERNEL_LIMIT && size <= u64::from(frames) * FRAME_SIZE
}
