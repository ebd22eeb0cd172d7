ghost use Rattle.std.specs.Prelude.{◌≡◌, IfOk, string_bytes};
ghost use Rattle.cli_programs.specs.Assembly.{Assembles, IsAssembled, Says, image_answer as image_answer_of, image_text as image_text_of};
ghost use Rattle.cli_base.specs.Commands.{IsDone};
ghost use Rattle.cli_base.specs.Readings.{MakesRefusal, Meets};
ghost use Rattle.cli_base.specs.declared.refusal.InputFault.TheVariants.{BadSource};
ghost use Rattle.cli_base.specs.declared.refusal.Refusal.TheVariants.{Bad};

use crate::reading::source as read_source;
use cli_base::{Answer, InputFault, SourceFault, Stop, bad};
use mips_asm::{AsmFault, assemble};
use std::alloc::Global;
use text_pieces::{push_bytes, push_decimal, push_hex8};
use xom_base::{ByteList, NoMemory, PlainImage};
use xom_image::write_plain;
use xom_io::{Files, Name};

/// `asm SOURCE IMAGE`: the image that a source stands for, as the plain image file IMAGE.
pub fn asm<F: Files>(
    alloc: Global,
    files: &mut F,
    source: &String,
    image: &String,
) -> Result<Answer, Stop>
    ensures meets { Meets (F.held files.old) (Assembles (string_bytes source.now) (string_bytes image.now))
        (F.reads files.old) (F.reads files.new) result }
    ensures done { IfOk result (λ answer. IsDone answer.status) }
    ensures names { F.held files.new ≡ F.held files.old }
    ensures writes { F.writes files.new ≡ F.writes files.old }
{
    let text = read_source(files, source)?;
    assembled(alloc, source, text.as_slice(), image)
}

/// The image of a source's text, as a file, or the fault of the source.
#[tactic(auto, using(crate::proofs::Assembled::assembled_stops))]
fn assembled(alloc: Global, source: &String, text: &[u8], image: &String) -> Result<Answer, Stop>
    ensures assembled { IsAssembled (string_bytes source.now) text.now (string_bytes image.now) result }
    ensures done { IfOk result (λ answer. IsDone answer.status) }
{
    match assemble(alloc, text) {
        Ok(plain) => Ok(image_answer(alloc, &plain, image)?),
        Err(fault) => Err(stop_for(source, fault)),
    }
}

/// Why a source with this fault isn't assembled.
fn stop_for(source: &String, fault: AsmFault) -> Stop
    ensures { Says (string_bytes source.now) fault result }
{
    match fault {
        AsmFault::Syntax(line) => bad_source(source, line, SourceFault::Syntax),
        AsmFault::Duplicate(line) => bad_source(source, line, SourceFault::Duplicate),
        AsmFault::TooLong(line) => bad_source(source, line, SourceFault::TooLong),
        AsmFault::Overlap(line) => bad_source(source, line, SourceFault::Overlap),
        AsmFault::UnknownName(line) => bad_source(source, line, SourceFault::UnknownName),
        AsmFault::Range(line) => bad_source(source, line, SourceFault::Range),
        AsmFault::NoMemory => Stop::NoMemory,
    }
}

fn bad_source(source: &String, line: u64, fault: SourceFault) -> Stop
    ensures { MakesRefusal result (Bad (string_bytes source.now) (BadSource line fault)) }
{
    bad(source, InputFault::BadSource(line, fault))
}

/// An image as a file of this name.
fn image_answer(alloc: Global, image: &PlainImage, name: &String) -> Result<Answer, NoMemory>
    ensures { IfOk result (λ answer. answer ≡ image_answer_of image.now (string_bytes name.now)) }
{
    let bytes = write_plain(alloc, image)?;
    let text = image_text(alloc, image.bytes.len() as u32, image.entry)?;
    Ok(Answer::of_file(text, Name::new(name.clone()?), bytes))
}

/// How many bytes an image has, and its entry.
fn image_text(alloc: Global, size: u32, entry: u32) -> Result<ByteList, NoMemory>
    ensures { IfOk result (λ text. text ≡ image_text_of size entry) }
{
    let mut text = Vec::new(alloc);
    push_bytes(&mut text, b"image ")?;
    push_decimal(&mut text, size)?;
    push_bytes(&mut text, b" bytes entry ")?;
    push_hex8(&mut text, entry)?;
    push_bytes(&mut text, b"\n")?;
    Ok(ByteList::from_vec(text))
}
