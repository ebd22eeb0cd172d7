ghost use Rattle.std.specs.Prelude.{◌≡◌, ◌++◌, IfOk, string_bytes};
ghost use Rattle.cli_delivery.specs.Endings.{Delivers, Finishes, Prints, PrintsRefusal, PutsFile, disk, ending_of_refusal as refused_by, output};
ghost use Rattle.cli_base.specs.Commands.{IsDone};
ghost use Rattle.cli_base.specs.Refusals.{input_fault_text as fault_text_of, refusal_text, source_word as source_word_of};

use crate::ending::Ending;
use cli_base::{Answer, InputFault, OutputFile, Refusal, SourceFault, Stop};
use std::alloc::{AllocError, Global};
use xom_io::{FileFault, Files, Name, Sink, SinkFault, put_all};

/// Delivers what was answered: the file and the text of an answer, or the line of a refusal.
pub fn finish<F: Files, O: Sink>(
    alloc: Global,
    answered: Result<Answer, Stop>,
    files: &mut F,
    out: &mut O,
) -> Ending
    requires { IfOk answered (λ answer. IsDone answer.status) }
    ensures finishes { Finishes (disk (F.held files.old) (F.writes files.old)) (disk (F.held files.new) (F.writes files.new))
        (output (O.written out.old) (O.faults out.old)) (output (O.written out.new) (O.faults out.new)) answered result }
    ensures reads { F.reads files.new ≡ F.reads files.old }
{
    match answered {
        Ok(answer) => deliver(&answer, files, out),
        Err(Stop::Refused(refusal)) => print_refusal(alloc, &refusal, out),
        Err(Stop::NoMemory) => Ending::NoMemory,
    }
}

/// Puts the file of an answer, and then its text. Where the file can't be put nothing is printed.
fn deliver<F: Files, O: Sink>(answer: &Answer, files: &mut F, out: &mut O) -> Ending
    ensures delivers { Delivers (disk (F.held files.old) (F.writes files.old)) (disk (F.held files.new) (F.writes files.new))
        (output (O.written out.old) (O.faults out.old)) (output (O.written out.new) (O.faults out.new)) answer.now result }
    ensures reads { F.reads files.new ≡ F.reads files.old }
{
    match put(files, &answer.file) {
        Ok(()) => print(
            out,
            answer.text.as_slice(),
            Ending::Done(answer.status),
            Ending::WriteFault,
        ),
        Err(FileFault::Failed) => Ending::WriteFault,
        Err(FileFault::TooLong) => Ending::WriteFault,
        Err(FileFault::NoMemory) => Ending::NoMemory,
    }
}

/// Puts a file, if there is one.
fn put<F: Files>(files: &mut F, file: &Option<OutputFile>) -> Result<(), FileFault>
    ensures puts { PutsFile (disk (F.held files.old) (F.writes files.old)) (disk (F.held files.new) (F.writes files.new)) file.now result }
    ensures reads { F.reads files.new ≡ F.reads files.old }
{
    match file {
        None => Ok(()),
        Some(file) => files.put(file.name.as_string(), &file.bytes),
    }
}

/// Prints the line of a refusal. That the sink fails in it doesn't change the ending.
fn print_refusal<O: Sink>(alloc: Global, refusal: &Refusal, out: &mut O) -> Ending
    ensures { PrintsRefusal (output (O.written out.old) (O.faults out.old))
        (output (O.written out.new) (O.faults out.new)) refusal.now result }
{
    match refusal_line(alloc, refusal) {
        Ok(line) => print(out, line.as_bytes(), refused(refusal), refused(refusal)),
        Err(_) => Ending::NoMemory,
    }
}

/// The line of a refusal.
fn refusal_line(alloc: Global, refusal: &Refusal) -> Result<String, AllocError>
    ensures { IfOk result (λ line. string_bytes line ≡ refusal_text refusal.now) }
{
    match refusal {
        Refusal::Unread(name) => line_around(alloc, "xom: cannot read ", name, "\n"),
        Refusal::Bad(name, fault) => {
            let said = fault_text(alloc, *fault)?;
            line_around(alloc, "xom: ", name, said.as_str())
        }
    }
}

/// What is said of a file behind its name.
fn fault_text(alloc: Global, fault: InputFault) -> Result<String, AllocError>
    ensures { IfOk result (λ text. string_bytes text ≡ fault_text_of fault) }
{
    match fault {
        InputFault::TooLong => String::from_str(alloc, ": too long\n"),
        InputFault::NotBuilt => String::from_str(alloc, ": not built\n"),
        InputFault::BadByte(offset) => format!(in alloc; " byte {offset}: bad\n"),
        InputFault::BadLine(line) => format!(in alloc; " line {line}: bad\n"),
        InputFault::BadSource(line, fault) => {
            let word = source_word(fault);
            format!(in alloc; " line {line}: {word}\n")
        }
    }
}

/// The word for what is wrong with a source.
fn source_word(fault: SourceFault) -> &'static str
    ensures { result.now ≡ source_word_of fault }
{
    match fault {
        SourceFault::Syntax => "Syntax",
        SourceFault::Duplicate => "Duplicate",
        SourceFault::TooLong => "TooLong",
        SourceFault::Overlap => "Overlap",
        SourceFault::UnknownName => "UnknownName",
        SourceFault::Range => "Range",
    }
}

/// A file's name between two texts.
fn line_around(alloc: Global, front: &str, name: &Name, back: &str) -> Result<String, AllocError>
    ensures { IfOk result (λ line. string_bytes line ≡ front.now ++ (name.now ++ back.now)) }
{
    let mut line = String::from_str(alloc, front)?;
    line.push_str(name.as_str())?;
    line.push_str(back)?;
    Ok(line)
}

fn refused(refusal: &Refusal) -> Ending
    ensures { result ≡ refused_by refusal.now }
{
    match refusal {
        Refusal::Unread(_) => Ending::Unread,
        Refusal::Bad(_, _) => Ending::BadInput,
    }
}

/// Puts a text, and ends by what the sink answers: `whole`, or `broken` where it failed.
pub fn print<O: Sink>(out: &mut O, text: &[u8], whole: Ending, broken: Ending) -> Ending
    ensures { Prints (output (O.written out.old) (O.faults out.old))
        (output (O.written out.new) (O.faults out.new)) text.now whole broken result }
{
    match put_all(out, text) {
        Ok(()) => whole,
        Err(SinkFault::Failed) => broken,
        Err(SinkFault::NoMemory) => Ending::NoMemory,
    }
}
