ghost use Rattle.std.specs.Prelude.{◌≡◌, IfOk, option_map, string_bytes};
ghost use Rattle.cli_programs.specs.Programs.{plain_of, values_of};
ghost use Rattle.cli_base.specs.Commands.{IsDone};
ghost use Rattle.cli_base.specs.Readings.{FilesGive};

use crate::reading::received as read_values;
use cli_base::{Answer, Stop, image as read_image};
use plain_run::{ReceivedList, run_alone};
use std::alloc::Global;
use xom_io::Files;

/// `plain IMAGE STEPS` and `plain IMAGE STEPS RECEIVED`: the steps of an image's program run alone,
/// at most so many, with the values of a received file for what it receives.
#[tactic(auto, unfolding(crate::specs::Programs::plain_of))]
pub fn plain<F: Files>(
    alloc: Global,
    files: &mut F,
    image: &String,
    steps: u64,
    received: Option<&String>,
) -> Result<Answer, Stop>
    ensures gives { FilesGive (F.held files.old) (λ held. plain_of held (string_bytes image.now) steps (option_map (λ name. string_bytes name.now) received.entry))
        (F.reads files.old) (F.reads files.new) result }
    ensures done { IfOk result (λ answer. IsDone answer.status) }
    ensures names { F.held files.new ≡ F.held files.old }
    ensures writes { F.writes files.new ≡ F.writes files.old }
{
    let image = read_image(alloc, files, image)?;
    let values = values(alloc, files, received)?;
    Ok(Answer::of_text(run_alone(alloc, &image, steps, values.as_slice())?))
}

/// The values of a received file, or none where no file is named.
fn values<F: Files>(
    alloc: Global,
    files: &mut F,
    received: Option<&String>,
) -> Result<ReceivedList, Stop>
    ensures gives { FilesGive (F.held files.old) (λ held. values_of held (option_map (λ name. string_bytes name.now) received.entry))
        (F.reads files.old) (F.reads files.new) result }
    ensures names { F.held files.new ≡ F.held files.old }
    ensures writes { F.writes files.new ≡ F.writes files.old }
{
    match received {
        None => Ok(ReceivedList::new(alloc)),
        Some(name) => read_values(alloc, files, name),
    }
}
