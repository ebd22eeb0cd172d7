ghost use Rattle.std.specs.Prelude.{◌≡◌};
ghost use Rattle.cli_delivery.specs.Endings.{status_of};

/// How a call ended.
#[derive(Clone, Copy)]
pub enum Ending {
    /// The command was carried out, with this status, and all its text was written.
    Done(u8),
    /// The words matched no row.
    NoRow,
    /// A file couldn't be read.
    Unread,
    /// The command was carried out, and its file or its text couldn't be written.
    WriteFault,
    /// A file was off its format, or over its limit.
    BadInput,
    /// No memory was found.
    NoMemory,
}

impl Ending {
    /// The status of the call.
    pub fn status(self) -> u8
        ensures { result ≡ status_of self }
    {
        match self {
            Ending::Done(status) => status,
            Ending::NoRow => 1,
            Ending::Unread => 2,
            Ending::WriteFault => 3,
            Ending::BadInput => 4,
            Ending::NoMemory => 5,
        }
    }
}
