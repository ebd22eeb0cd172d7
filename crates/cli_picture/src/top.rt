ghost use Rattle.std.specs.Prelude.{map, string_bytes};
ghost use Rattle.cli_delivery.specs.Endings.{disk, output, outside};
ghost use Rattle.cli_picture.specs.Calls.{EndsCall, PicturePromises};

use crate::draw::draw;
use cli_delivery::{Ending, finish, print};
use std::alloc::Global;
use xom_io::{Files, Sink};

/// `picture JOURNAL PAGE`: writes the page that shows a journal, and answers the status.
///
/// 0: the page was written. 1: the words aren't a journal and a page. 2: the journal can't be read. 3: the
/// page can't be written. 4: the journal is too long, or a line of it is bad. 5: no memory was found.
/// Where it is 1, 2 or 4 one line says so; else nothing is printed. No other file is changed.
pub fn picture<F: Files, O: Sink>(
    alloc: Global,
    words: &Vec<String>,
    files: &mut F,
    out: &mut O,
) -> u8
    ensures promises { PicturePromises (map string_bytes words.now.items)
        (outside (disk (F.held files.old) (F.writes files.old)) (F.reads files.old) (output (O.written out.old) (O.faults out.old)))
        (outside (disk (F.held files.new) (F.writes files.new)) (F.reads files.new) (output (O.written out.new) (O.faults out.new)))
        result }
{
    call(alloc, words.as_slice(), files, out).status()
}

/// A whole call: the words, the page and its file.
fn call<F: Files, O: Sink>(alloc: Global, words: &[String], files: &mut F, out: &mut O) -> Ending
    ensures { EndsCall (map string_bytes words.now)
        (outside (disk (F.held files.old) (F.writes files.old)) (F.reads files.old) (output (O.written out.old) (O.faults out.old)))
        (outside (disk (F.held files.new) (F.writes files.new)) (F.reads files.new) (output (O.written out.new) (O.faults out.new)))
        result }
{
    match words {
        [journal, page] => {
            let answered = draw(alloc, files, journal, page);
            finish(alloc, answered, files, out)
        }
        _ => print(out, b"xom: words\n", Ending::NoRow, Ending::NoRow),
    }
}
