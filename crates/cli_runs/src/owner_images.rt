ghost use Rattle.std.specs.Prelude.{◌≡◌, IfOk};
ghost use Rattle.cli_base.specs.Readings.{FilesGive};
ghost use Rattle.cli_runs.specs.OwnerImages.{AreOwnersOf, owners_of};

use cli_base::{Stop, image};
use std::alloc::Global;
use xom_io::Files;
use xom_owners::{Owner, OwnerList};
use xom_script::OwnerFileList;

/// The owners of these lines, whose images are read one after the other.
pub fn owners<F: Files>(
    alloc: Global,
    files: &mut F,
    lines: &OwnerFileList,
) -> Result<OwnerList, Stop>
    ensures gives { FilesGive (F.held files.old) (λ held. owners_of held lines.now)
        (F.reads files.old) (F.reads files.new) result }
    ensures named { IfOk result (AreOwnersOf lines.now) }
    ensures names { F.held files.new ≡ F.held files.old }
    ensures writes { F.writes files.new ≡ F.writes files.old }
{
    let mut owners = OwnerList::new(alloc);
    for line in lines.as_slice() {
        let plain = image(alloc, files, line.plain.as_string())?;
        owners.push(Owner {
            plain,
            key: line.key,
            id: line.id,
        })?;
    }
    Ok(owners)
}
