ghost use Rattle.std.specs.Prelude.{◌≡◌, IfOk, string_bytes};
ghost use Rattle.cli_base.specs.Readings.{FilesGive};
ghost use Rattle.cli_runs.specs.Parts.{CanRun, parts_named, parts_of};
ghost use Rattle.cli_runs.specs.RunFiles.{IsRunnable};

use crate::guest_files::guests;
use crate::kernel_files::kernel;
use crate::owner_images::owners;
use crate::parts::Parts;
use crate::run_files::built_run;
use cli_base::Stop;
use std::alloc::Global;
use xom_io::Files;
use xom_script::RunFile;

/// Reads all that a run is made of: the run file of this name, and what it names in the order of its
/// lines. The first that can't be read, is off its grammar or doesn't fit RAM is refused.
#[tactic(auto, unfolding(crate::specs::Parts::parts_of))]
pub fn read_parts<F: Files>(alloc: Global, files: &mut F, run: &String) -> Result<Parts, Stop>
    ensures gives { FilesGive (F.held files.old) (λ held. parts_of held (string_bytes run.now))
        (F.reads files.old) (F.reads files.new) result }
    ensures runnable { IfOk result CanRun }
    ensures names { F.held files.new ≡ F.held files.old }
    ensures writes { F.writes files.new ≡ F.writes files.old }
{
    let file = built_run(alloc, files, run)?;
    parts_named(alloc, files, run, file)
}

/// Reads what a run file names.
#[tactic(auto, unfolding(crate::specs::Parts::parts_named))]
fn parts_named<F: Files>(
    alloc: Global,
    files: &mut F,
    run: &String,
    file: RunFile,
) -> Result<Parts, Stop>
    requires { IsRunnable file }
    ensures gives { FilesGive (F.held files.old) (λ held. parts_named held (string_bytes run.now) file)
        (F.reads files.old) (F.reads files.new) result }
    ensures runnable { IfOk result CanRun }
    ensures names { F.held files.new ≡ F.held files.old }
    ensures writes { F.writes files.new ≡ F.writes files.old }
{
    let owners = owners(alloc, files, &file.owners)?;
    let guests = guests(alloc, files, run, file.frames, &file.guests)?;
    let kernel = kernel(
        alloc,
        files,
        run,
        file.frames,
        file.kernel_line,
        &file.kernel,
    )?;
    Ok(Parts {
        file,
        owners,
        guests,
        kernel,
    })
}
