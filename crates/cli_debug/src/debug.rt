ghost use Rattle.std.specs.Prelude.{◌≡◌, All, IfOk, IfSome, string_bytes};
ghost use Rattle.cli_base.specs.Readings.{FilesGive};
ghost use Rattle.cli_runs.specs.KernelFiles.{FitsKernel};
ghost use Rattle.cli_runs.specs.Parts.{CanRun};
ghost use Rattle.cli_runs.specs.Places.{FitsAll, first_frame};
ghost use Rattle.cli_runs.specs.RunFiles.{IsRunnable};
ghost use Rattle.cli_runs.specs.declared.kernel_file.KernelFile.TheVariants as kernel_file;
ghost use Rattle.power_on.specs.Shipped.{shipped_versions};
ghost use Rattle.xom_model.specs.Seen.{view_of};
ghost use Rattle.xom_debug.specs.Commands.{CommandKeepsRules};
ghost use Rattle.xom_debug.specs.DebugTexts.{debug_text};
ghost use Rattle.xom_debug.specs.Moments.{moments_from};
ghost use Rattle.cli_debug.specs.Debug.{commands_of, debug_answer as debugged_of, debug_of, text_by as text_by_of};

use cli_base::{Answer, Stop, fetch, lined, of_file};
use cli_runs::{GuestImageList, KernelFile, Parts, read_parts};
use kernels::{ImageKernel, ScriptKernel};
use power_on::{ShippedMachine, power_on};
use std::alloc::Global;
use xom_base::{ByteList, NoMemory, PlainImage};
use xom_debug::{CommandList, debug as debug_machine, read_commands};
use xom_io::Files;
use xom_machine::{Chunk, Kernel};
use xom_script::{RunFile, Script};

/// The most bytes of the commands of a debugger.
const COMMANDS_LIMIT: u64 = 65_536;

/// `debug RUN COMMANDS`: reads what a run is made of, and then the commands, makes the run as they ask
/// for it, and prints what they print. The status is 0, however far the run came and whatever happened
/// in it. No journal is judged.
#[tactic(auto, unfolding(crate::specs::Debug::debug_of))]
pub fn debug<F: Files>(
    alloc: Global,
    files: &mut F,
    run: &String,
    commands: &String,
) -> Result<Answer, Stop>
    ensures gives { FilesGive (F.held files.old) (λ held. debug_of held (string_bytes run.now) (string_bytes commands.now))
        (F.reads files.old) (F.reads files.new) result }
    ensures done { IfOk result (λ answer. answer.status ≡ 0) }
    ensures names { F.held files.new ≡ F.held files.old }
    ensures writes { F.writes files.new ≡ F.writes files.old }
{
    let parts = read_parts(alloc, files, run)?;
    let list = commands_named(alloc, files, commands)?;
    Ok(debugged(alloc, parts, &list)?)
}

/// The commands in the file of this name.
#[tactic(auto, unfolding(crate::specs::Debug::commands_of))]
fn commands_named<F: Files>(
    alloc: Global,
    files: &mut F,
    name: &String,
) -> Result<CommandList, Stop>
    ensures gives { FilesGive (F.held files.old) (λ held. commands_of held (string_bytes name.now))
        (F.reads files.old) (F.reads files.new) result }
    ensures rules { IfOk result (λ commands. All CommandKeepsRules commands) }
    ensures names { F.held files.new ≡ F.held files.old }
    ensures writes { F.writes files.new ≡ F.writes files.old }
{
    let text = fetch(files, name, COMMANDS_LIMIT)?;
    of_file(name, lined(read_commands(alloc, text.as_slice())))
}

/// Makes the run under the commands, and prints what they print.
#[tactic(auto, unfolding(crate::specs::Debug::debug_answer))]
fn debugged(alloc: Global, parts: Parts, commands: &CommandList) -> Result<Answer, NoMemory>
    requires parts { CanRun parts }
    requires rules { All CommandKeepsRules commands.now }
    ensures value { IfOk result (λ answer. answer ≡ debugged_of parts commands.now) }
    ensures done { IfOk result (λ answer. answer.status ≡ 0) }
{
    let Parts {
        file,
        owners: _,
        guests,
        kernel,
    } = parts;
    let text = text_by(alloc, &file, &guests, kernel, commands)?;
    Ok(Answer {
        text,
        file: None,
        status: 0,
    })
}

/// What the commands print of the run of a kernel over these guests.
fn text_by(
    alloc: Global,
    file: &RunFile,
    guests: &GuestImageList,
    kernel: KernelFile,
    commands: &CommandList,
) -> Result<ByteList, NoMemory>
    requires file { IsRunnable file.now }
    requires guests { FitsAll file.now.frames first_frame guests.now }
    requires kernel { FitsKernel file.now.frames kernel }
    requires rules { All CommandKeepsRules commands.now }
    ensures { IfOk result (λ text. text ≡ text_by_of file.now guests.now kernel commands.now) }
{
    match kernel {
        KernelFile::Script(script) => script_text(alloc, file, guests, script, commands),
        KernelFile::Image(image) => image_text(alloc, file, guests, &image, commands),
    }
}

/// What the commands print of the run of a script.
fn script_text(
    alloc: Global,
    file: &RunFile,
    guests: &GuestImageList,
    script: Script,
    commands: &CommandList,
) -> Result<ByteList, NoMemory>
    requires file { IsRunnable file.now }
    requires guests { FitsAll file.now.frames first_frame guests.now }
    requires rules { All CommandKeepsRules commands.now }
    ensures { IfOk result (λ text. text ≡ text_by_of file.now guests.now (kernel_file.Script script) commands.now) }
{
    let machine = power_on(alloc, &file.machine, file.boot, file.frames, None, guests)?;
    let text = text_under(alloc, machine, ScriptKernel::new(script), file, commands)?;
    Ok(text)
}

/// What the commands print of the run of a kernel's image.
fn image_text(
    alloc: Global,
    file: &RunFile,
    guests: &GuestImageList,
    image: &PlainImage,
    commands: &CommandList,
) -> Result<ByteList, NoMemory>
    requires file { IsRunnable file.now }
    requires guests { FitsAll file.now.frames first_frame guests.now }
    requires kernel { FitsKernel file.now.frames (kernel_file.Image image.now) }
    requires rules { All CommandKeepsRules commands.now }
    ensures { IfOk result (λ text. text ≡ text_by_of file.now guests.now (kernel_file.Image image.now) commands.now) }
{
    let machine = power_on(
        alloc,
        &file.machine,
        file.boot,
        file.frames,
        Some(image),
        guests,
    )?;
    let text = text_under(alloc, machine, ImageKernel::new(), file, commands)?;
    Ok(text)
}

/// What the commands print of the run of a kernel over a machine, under the schedule and within the
/// budget of a run file.
fn text_under<K: Kernel + Drop>(
    alloc: Global,
    machine: ShippedMachine,
    kernel: K,
    file: &RunFile,
    commands: &CommandList,
) -> Result<ByteList, NoMemory>
    requires first { machine.state.events ≡ 0 }
    requires file { IsRunnable file.now }
    requires rules { All CommandKeepsRules commands.now }
    ensures { IfOk result (λ text. IfSome (moments_from shipped_versions K.told file.now.schedule file.now.budget 0 machine.state kernel) (λ run. text ≡ debug_text commands.now (view_of machine.state) run)) }
{
    let mut machine = machine;
    let mut kernel = kernel;
    let mut chunk = Chunk::new(alloc)?;
    debug_machine(
        alloc,
        &mut machine,
        &mut kernel,
        &file.schedule,
        file.budget,
        commands,
        &mut chunk,
    )
}
