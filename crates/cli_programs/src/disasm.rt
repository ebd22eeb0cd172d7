ghost use Rattle.std.specs.Prelude.{◌≡◌, IfOk, string_bytes};
ghost use Rattle.cli_programs.specs.Programs.{disasm_of};
ghost use Rattle.cli_base.specs.Commands.{IsDone};
ghost use Rattle.cli_base.specs.Readings.{FilesGive};

use cli_base::{Answer, Stop, image as read_image};
use mips_text::listing;
use std::alloc::Global;
use xom_io::Files;

/// `disasm IMAGE`: each word of a plain image as its address, itself and its instruction.
#[tactic(auto, unfolding(crate::specs::Programs::disasm_of))]
pub fn disasm<F: Files>(alloc: Global, files: &mut F, image: &String) -> Result<Answer, Stop>
    ensures gives { FilesGive (F.held files.old) (λ held. disasm_of held (string_bytes image.now))
        (F.reads files.old) (F.reads files.new) result }
    ensures done { IfOk result (λ answer. IsDone answer.status) }
    ensures names { F.held files.new ≡ F.held files.old }
    ensures writes { F.writes files.new ≡ F.writes files.old }
{
    let image = read_image(alloc, files, image)?;
    Ok(Answer::of_text(listing(alloc, &image)?))
}
