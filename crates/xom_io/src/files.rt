ghost use Rattle.std.specs.Prelude.{◌≡◌, ℕ, List, Option, string_bytes};
ghost use Rattle.xom_io.specs.declared.files.FileFault.TheVariants.{NoMemory as OutOfMemory};
ghost use Rattle.xom_io.specs.Answers.{Gets, Puts, KeepsOthers};

use thiserror::Error;
use xom_base::{ByteList, NoMemory};

/// Why a file was not read or written.
#[derive(Clone, Copy, Debug, PartialEq, Error)]
pub enum FileFault {
    /// The file could not be read, or not be written.
    #[error("the file failed")]
    Failed,
    /// The file that was to be read has more bytes than the caller allows. Writing never gives this.
    #[error("the file is too long")]
    TooLong,
    /// Want of memory.
    #[error("out of memory")]
    NoMemory,
}

impl From<NoMemory> for FileFault {
    ghost from_gives = { λ _ fault. fault ≡ OutOfMemory };

    fn from(_: NoMemory) -> FileFault {
        FileFault::NoMemory
    }
}

/// Named files. They mean a map from names to bytes, where they tell it, and two counts of faults
/// that never fall, one of reads and one of writes.
pub trait Files {
    // What each name holds, by the bytes of the name, or none where that isn't told.
    ghost held: { Self → Option (List ℕ → Option (List ℕ)) };

    // How many reads failed for a fault of the outside.
    ghost reads: { Self → ℕ };

    // How many writes failed.
    ghost writes: { Self → ℕ };

    /// The bytes that the name holds, at most `limit` of them.
    ///
    /// `Failed`: the file could not be read, or there is none. `TooLong`: it has more bytes than
    /// `limit`. `NoMemory`: there is no room for the bytes. No answer changes a file.
    fn get(&mut self, name: &String, limit: u64) -> Result<ByteList, FileFault>
        ensures answer { Gets (held self.old) (string_bytes name.now) limit (reads self.old) (reads self.new) result }
        ensures names { held self.new ≡ held self.old }
        ensures other_count { writes self.new ≡ writes self.old };

    /// Makes the name hold these bytes in place of what it held. No other name changes.
    ///
    /// `Failed`: the file could not be written, and the name may hold any bytes or none.
    /// `NoMemory`: there was no room, and the name is as it was.
    fn put(&mut self, name: &String, bytes: &ByteList) -> Result<(), FileFault>
        ensures answer { Puts (held self.old) (held self.new) (string_bytes name.now) bytes.now (writes self.old) (writes self.new) result }
        ensures others { KeepsOthers (held self.old) (held self.new) (string_bytes name.now) }
        ensures other_count { reads self.new ≡ reads self.old };
}
