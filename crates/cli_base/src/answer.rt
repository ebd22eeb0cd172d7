ghost use Rattle.std.specs.Prelude.{◌≡◌};
ghost use Rattle.cli_base.specs.Commands.{prints, writes};

use xom_base::ByteList;
use xom_io::Name;

/// A file that a command writes.
#[derive(Drop)]
pub struct OutputFile {
    /// Its name.
    pub name: Name,
    /// All that it is to hold.
    pub bytes: ByteList,
}

/// What a command that was carried out has to say.
#[derive(Drop)]
pub struct Answer {
    /// All that it prints.
    pub text: ByteList,
    /// The file that it writes before it prints, if it writes one.
    pub file: Option<OutputFile>,
    /// Its status: 0, or 6 to 9.
    pub status: u8,
}

impl Answer {
    /// The answer that prints a text and does nothing else.
    pub fn of_text(text: ByteList) -> Answer
        ensures { result ≡ prints text }
    {
        Answer {
            text,
            file: None,
            status: 0,
        }
    }

    /// The answer that writes a file of this name and then prints a text.
    pub fn of_file(text: ByteList, name: Name, bytes: ByteList) -> Answer
        ensures { result ≡ writes text name bytes }
    {
        Answer {
            text,
            file: Some(OutputFile { name, bytes }),
            status: 0,
        }
    }
}
