ghost use Rattle.std.specs.Prelude.{◌≡◌, string_bytes};
ghost use Rattle.cli_base.specs.declared.refusal.InputStop.TheVariants.{NoMemory as InputOutOfMemory};
ghost use Rattle.cli_base.specs.declared.refusal.Stop.TheVariants.{NoMemory as OutOfMemory};

use xom_base::NoMemory;
use xom_io::Name;

/// What is wrong with a file that was read.
#[derive(Clone, Copy)]
pub enum InputFault {
    /// It is over its limit.
    TooLong,
    /// It isn't in the form that is built.
    NotBuilt,
    /// It breaks its format at this byte first, counted from 0.
    BadByte(u64),
    /// This line, counted from 1, is the first that is off the grammar.
    BadLine(u64),
    /// This line of a source, counted from 1, is the first that has this fault.
    BadSource(u64, SourceFault),
}

/// What is wrong with an assembler source. Kinds are looked for in this order.
#[derive(Clone, Copy)]
pub enum SourceFault {
    /// A line is off the grammar.
    Syntax,
    /// A label was named before.
    Duplicate,
    /// A byte lies past the limit of an image.
    TooLong,
    /// A place was written before.
    Overlap,
    /// A name is that of no label.
    UnknownName,
    /// A value is out of its range.
    Range,
}

/// Why the bytes of a file gave no input.
pub enum InputStop {
    /// For a fault of theirs.
    Fault(InputFault),
    /// For want of memory.
    NoMemory,
}

impl From<NoMemory> for InputStop {
    ghost from_gives = { λ _ e. e ≡ InputOutOfMemory };

    fn from(_: NoMemory) -> InputStop {
        InputStop::NoMemory
    }
}

/// Why a command wasn't carried out. Nothing was written to any file.
#[derive(Drop)]
pub enum Refusal {
    /// A file of this name can't be read.
    Unread(Name),
    /// The file of this name is no input for the command.
    Bad(Name, InputFault),
}

/// Why reading or working stopped.
#[derive(Drop)]
pub enum Stop {
    /// For a reason that is printed.
    Refused(Refusal),
    /// For want of memory.
    NoMemory,
}

impl From<NoMemory> for Stop {
    ghost from_gives = { λ _ e. e ≡ OutOfMemory };

    fn from(_: NoMemory) -> Stop {
        Stop::NoMemory
    }
}
