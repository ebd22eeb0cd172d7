ghost use Rattle.std.specs.Prelude.{◌≡◌, IfOk, string_bytes};
ghost use Rattle.xom_script.specs.RunFiles.{run_file_at};
ghost use Rattle.cli_base.specs.Inputs.{InputAnswers, in_lines};
ghost use Rattle.cli_base.specs.Readings.{FilesGive};
ghost use Rattle.cli_runs.specs.RunFiles.{IsRunnable, built_at, built_run_of, is_built, run_file_of};

use cli_base::{InputFault, InputStop, Stop, fetch, lined, of_file};
use std::alloc::Global;
use xom_io::Files;
use xom_script::{KernelLine, RunFile, read_run};

/// The most bytes of a run file.
const RUN_LIMIT: u64 = 65_536;

/// The run file of this name, whatever kernel it asks for.
#[tactic(auto, unfolding(crate::specs::RunFiles::run_file_of))]
pub fn run_file<F: Files>(alloc: Global, files: &mut F, name: &String) -> Result<RunFile, Stop>
    ensures gives { FilesGive (F.held files.old) (λ held. run_file_of held (string_bytes name.now))
        (F.reads files.old) (F.reads files.new) result }
    ensures runnable { IfOk result IsRunnable }
    ensures names { F.held files.new ≡ F.held files.old }
    ensures writes { F.writes files.new ≡ F.writes files.old }
{
    let text = fetch(files, name, RUN_LIMIT)?;
    of_file(name, run_in(alloc, text.as_slice()))
}

/// The run file of a text.
fn run_in(alloc: Global, text: &[u8]) -> Result<RunFile, InputStop>
    ensures value { InputAnswers (in_lines (run_file_at text.now)) result }
    ensures runnable { IfOk result IsRunnable }
{
    lined(read_run(alloc, text))
}

/// The run file of this name. Refused where its kernel isn't built.
#[tactic(auto, unfolding(crate::specs::RunFiles::built_run_of))]
pub fn built_run<F: Files>(alloc: Global, files: &mut F, name: &String) -> Result<RunFile, Stop>
    ensures gives { FilesGive (F.held files.old) (λ held. built_run_of held (string_bytes name.now))
        (F.reads files.old) (F.reads files.new) result }
    ensures runnable { IfOk result IsRunnable }
    ensures names { F.held files.new ≡ F.held files.old }
    ensures writes { F.writes files.new ≡ F.writes files.old }
{
    let file = run_file(alloc, files, name)?;
    of_file(name, built(file))
}

/// The run file, where its kernel is built.
fn built(file: RunFile) -> Result<RunFile, InputStop>
    ensures value { InputAnswers (built_at file) result }
    ensures same { IfOk result (λ built. built ≡ file) }
{
    if is_built(&file.kernel) {
        Ok(file)
    } else {
        Err(InputStop::Fault(InputFault::NotBuilt))
    }
}

/// Whether a kernel can be run.
fn is_built(kernel: &KernelLine) -> bool
    ensures { result ≡ is_built kernel.now }
{
    match kernel {
        KernelLine::Script(_) => true,
        KernelLine::Image(_) => true,
        KernelLine::Xomos(_) => false,
    }
}
