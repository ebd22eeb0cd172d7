ghost use Rattle.std.specs.Prelude.{◌≡◌, ◌++◌, IfOk, OnOk};
ghost use Rattle.std.specs.Option.{option_to_list};
ghost use Rattle.run_text.specs.Console.{console_lines, console_of};

use std::alloc::Global;
use xom_base::NoMemory;
use xom_journal::Journal;

/// The console of a journal. It goes through all the entries once, and copies none.
#[tactic(auto, using(crate::proofs::Places::console_next))]
pub fn console(alloc: Global, journal: &Journal) -> Result<Vec<u8>, NoMemory>
    ensures { IfOk result (λ bytes. bytes.items ≡ console_of journal.now.entries) }
{
    let mut bytes = Vec::new(alloc);
    for i in 0..journal.len() {
        push_some(&mut bytes, journal.byte_at(i))?;
    }
    Ok(bytes)
}

/// Adds a byte, if there is one.
fn push_some(bytes: &mut Vec<u8>, byte: Option<u8>) -> Result<(), NoMemory>
    ensures { OnOk result (bytes.new.items ≡ bytes.old.items ++ option_to_list byte) }
{
    match byte {
        None => Ok(()),
        Some(byte) => Ok(bytes.push(byte)?),
    }
}

/// Ends the last line of a console, where it has one that isn't ended.
pub fn end_line(bytes: &mut Vec<u8>) -> Result<(), NoMemory>
    ensures { OnOk result (bytes.new.items ≡ console_lines bytes.old.items) }
{
    match bytes.last().copied() {
        None => Ok(()),
        Some(b'\n') => Ok(()),
        Some(_) => Ok(bytes.push(b'\n')?),
    }
}
