ghost use Rattle.std.specs.Prelude.{◌≡◌, string_bytes};
ghost use Rattle.cli_base.specs.declared.refusal.Refusal.TheVariants.{Unread, Bad};
ghost use Rattle.cli_base.specs.Inputs.{InputAnswers, file_or_refusal, image_at, image_of};
ghost use Rattle.cli_base.specs.Readings.{FilesGive, IsLined, IsNamed, MakesRefusal};

use crate::refusal::{InputFault, InputStop, Refusal, Stop};
use std::alloc::Global;
use text_lines::TextFault;
use xom_base::{ByteList, PlainImage};
use xom_image::{ImageFault, read_plain};
use xom_io::{FileFault, Files, Name};

/// The most bytes of a plain image file.
const IMAGE_LIMIT: u64 = 1_048_592;

/// The image of the plain image file of this name. Refused where the file can't be read, is over
/// 1,048,592 bytes, or is no plain image file; the first bad byte is told.
#[tactic(auto, unfolding(crate::specs::Inputs::image_of))]
pub fn image<F: Files>(alloc: Global, files: &mut F, name: &String) -> Result<PlainImage, Stop>
    ensures gives { FilesGive (F.held files.old) (λ held. image_of held (string_bytes name.now))
        (F.reads files.old) (F.reads files.new) result }
    ensures names { F.held files.new ≡ F.held files.old }
    ensures writes { F.writes files.new ≡ F.writes files.old }
{
    let bytes = fetch(files, name, IMAGE_LIMIT)?;
    of_file(name, image_in(alloc, &bytes))
}

/// The bytes of a file. Refused where it can't be read or has more than so many bytes.
#[tactic(auto, unfolding(crate::specs::Inputs::file_or_refusal))]
pub fn fetch<F: Files>(files: &mut F, name: &String, limit: u64) -> Result<ByteList, Stop>
    ensures gives { FilesGive (F.held files.old) (λ held. file_or_refusal held (string_bytes name.now) limit)
        (F.reads files.old) (F.reads files.new) result }
    ensures names { F.held files.new ≡ F.held files.old }
    ensures writes { F.writes files.new ≡ F.writes files.old }
{
    match files.get(name, limit) {
        Ok(bytes) => Ok(bytes),
        Err(FileFault::Failed) => Err(unread(name)),
        Err(FileFault::TooLong) => Err(bad(name, InputFault::TooLong)),
        Err(FileFault::NoMemory) => Err(Stop::NoMemory),
    }
}

/// What the reader of a text in lines answered. A bad line, counted from 1, is the fault of the input.
pub fn lined<A: Drop>(read: Result<A, TextFault>) -> Result<A, InputStop>
    ensures { IsLined read result }
{
    match read {
        Ok(value) => Ok(value),
        Err(TextFault::Line(line)) => Err(InputStop::Fault(InputFault::BadLine(line))),
        Err(TextFault::NoMemory) => Err(InputStop::NoMemory),
    }
}

/// The image of the bytes of a plain image file.
#[tactic(auto, unfolding(crate::specs::Inputs::image_at))]
fn image_in(alloc: Global, bytes: &ByteList) -> Result<PlainImage, InputStop>
    ensures { InputAnswers (image_at bytes.now) result }
{
    match read_plain(alloc, bytes) {
        Ok(image) => Ok(image),
        Err(ImageFault::Bad(offset)) => Err(InputStop::Fault(InputFault::BadByte(offset))),
        Err(ImageFault::NoMemory) => Err(InputStop::NoMemory),
    }
}

/// What a reader answered. A fault of the input is refused with the name of the file, unless memory runs
/// out for the name.
pub fn of_file<A: Drop>(name: &String, read: Result<A, InputStop>) -> Result<A, Stop>
    ensures { IsNamed (string_bytes name.now) read result }
{
    match read {
        Ok(value) => Ok(value),
        Err(InputStop::Fault(fault)) => Err(bad(name, fault)),
        Err(InputStop::NoMemory) => Err(Stop::NoMemory),
    }
}

fn unread(name: &String) -> Stop
    ensures { MakesRefusal result (Unread (string_bytes name.now)) }
{
    match name.clone() {
        Ok(name) => Stop::Refused(Refusal::Unread(Name::new(name))),
        Err(_) => Stop::NoMemory,
    }
}

/// The refusal of a file that has this fault, or want of memory for its name.
pub fn bad(name: &String, fault: InputFault) -> Stop
    ensures { MakesRefusal result (Bad (string_bytes name.now) fault) }
{
    match name.clone() {
        Ok(name) => Stop::Refused(Refusal::Bad(Name::new(name), fault)),
        Err(_) => Stop::NoMemory,
    }
}
