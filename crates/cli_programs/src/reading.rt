ghost use Rattle.std.specs.Prelude.{◌≡◌, string_bytes};
ghost use Rattle.cli_base.specs.Inputs.{file_or_refusal};
ghost use Rattle.cli_base.specs.Readings.{FilesGive};
ghost use Rattle.cli_programs.specs.Programs.{received_values, source_limit};

use cli_base::{Stop, fetch, lined, of_file};
use plain_run::{ReceivedList, read_received};
use std::alloc::Global;
use xom_base::ByteList;
use xom_io::Files;

/// The most bytes of an assembler source.
const SOURCE_LIMIT: u64 = 1_048_576;

/// The most bytes of a received file.
const RECEIVED_LIMIT: u64 = 1_048_576;

/// The text of the assembler source of this name.
pub fn source<F: Files>(files: &mut F, name: &String) -> Result<ByteList, Stop>
    ensures gives { FilesGive (F.held files.old) (λ held. file_or_refusal held (string_bytes name.now) source_limit)
        (F.reads files.old) (F.reads files.new) result }
    ensures names { F.held files.new ≡ F.held files.old }
    ensures writes { F.writes files.new ≡ F.writes files.old }
{
    fetch(files, name, SOURCE_LIMIT)
}

/// The values of the received file of this name.
#[tactic(auto, unfolding(crate::specs::Programs::received_values))]
pub fn received<F: Files>(alloc: Global, files: &mut F, name: &String) -> Result<ReceivedList, Stop>
    ensures gives { FilesGive (F.held files.old) (λ held. received_values held (string_bytes name.now))
        (F.reads files.old) (F.reads files.new) result }
    ensures names { F.held files.new ≡ F.held files.old }
    ensures writes { F.writes files.new ≡ F.writes files.old }
{
    let text = fetch(files, name, RECEIVED_LIMIT)?;
    of_file(name, lined(read_received(alloc, text.as_slice())))
}
