ghost use Rattle.std.specs.Prelude.{◌≡◌, IfOk, string_bytes};
ghost use Rattle.cli_base.specs.Commands.{IsDone};
ghost use Rattle.cli_programs.specs.Programs.{seal_answer, sealed_text as sealed_text_of, sealing_answer};
ghost use Rattle.cli_base.specs.Readings.{FilesGive};

use cli_base::{Answer, Stop, image as read_image};
use std::alloc::Global;
use xom_base::{ByteList, ImageId, Key256, NoMemory};
use xom_image::write_sealed;
use xom_io::{Files, Name};
use xom_owners::Owner;

/// `seal IMAGE KEY ID MACHINE SEALED`: a plain image, sealed under its owner's key and id for a
/// machine, as the file SEALED.
#[tactic(auto, unfolding(crate::specs::Programs::seal_answer))]
pub fn seal<F: Files>(
    alloc: Global,
    files: &mut F,
    image: &String,
    key: Key256,
    id: ImageId,
    machine: &Key256,
    sealed: &String,
) -> Result<Answer, Stop>
    ensures gives { FilesGive (F.held files.old) (λ held. seal_answer held (string_bytes image.now) key id machine.now (string_bytes sealed.now))
        (F.reads files.old) (F.reads files.new) result }
    ensures done { IfOk result (λ answer. IsDone answer.status) }
    ensures names { F.held files.new ≡ F.held files.old }
    ensures writes { F.writes files.new ≡ F.writes files.old }
{
    let plain = read_image(alloc, files, image)?;
    let owner = Owner { plain, key, id };
    Ok(sealed_by(alloc, &owner, machine, sealed)?)
}

/// The owner's image, sealed, as a file of this name.
fn sealed_by(
    alloc: Global,
    owner: &Owner,
    machine: &Key256,
    name: &String,
) -> Result<Answer, NoMemory>
    ensures { IfOk result (λ answer. answer ≡ sealing_answer machine.now owner.now (string_bytes name.now)) }
{
    let sealed = image_sealer::seal(alloc, owner, machine)?;
    let bytes = write_sealed(alloc, &sealed)?;
    let text = sealed_text(alloc, sealed.lines.len(), bytes.len())?;
    Ok(Answer::of_file(text, Name::new(name.clone()?), bytes))
}

/// How many lines were sealed, and how many bytes the file has.
fn sealed_text(alloc: Global, lines: usize, size: usize) -> Result<ByteList, NoMemory>
    ensures { IfOk result (λ text. text ≡ sealed_text_of lines size) }
{
    let text = format!(in alloc; "sealed {lines} lines {size} bytes\n")?;
    Ok(ByteList::from_vec(text.into_bytes()))
}
