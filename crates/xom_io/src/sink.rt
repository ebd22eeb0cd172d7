ghost use Rattle.std.specs.Prelude.{◌≡◌, ℕ, List, Option};
ghost use Rattle.xom_io.specs.declared.sink.SinkFault.TheVariants.{NoMemory as OutOfMemory};
ghost use Rattle.xom_io.specs.Answers.{SinkTakes, TakesAll};

use thiserror::Error;
use xom_base::NoMemory;

/// Why a sink took nothing.
#[derive(Clone, Copy, Debug, PartialEq, Error)]
pub enum SinkFault {
    /// The device took no byte.
    #[error("the sink failed")]
    Failed,
    /// Want of memory.
    #[error("out of memory")]
    NoMemory,
}

impl From<NoMemory> for SinkFault {
    ghost from_gives = { λ _ fault. fault ≡ OutOfMemory };

    fn from(_: NoMemory) -> SinkFault {
        SinkFault::NoMemory
    }
}

/// Where bytes are written one after another. It means the bytes written, where it tells them, and
/// a count of faults that never falls.
pub trait Sink {
    // All the bytes written so far, or none where they aren't told.
    ghost written: { Self → Option (List ℕ) };

    // How many puts failed.
    ghost faults: { Self → ℕ };

    /// Appends some first bytes of the piece, at least one where it has any, and says how many.
    ///
    /// `Failed`: the device took no byte. `NoMemory`: there was no room. Then nothing was appended.
    /// An empty piece is answered by 0 and changes nothing.
    fn put(&mut self, bytes: &[u8]) -> Result<usize, SinkFault>
        ensures { SinkTakes (written self.old) (written self.new) bytes.now (faults self.old) (faults self.new) result };
}

/// Appends all the bytes, by as many puts as it takes.
///
/// `Failed` and `NoMemory`: a put of what was left gave this, and the bytes before were appended.
#[tactic(auto, using(crate::proofs::Appended::further))]
pub fn put_all<O: Sink>(out: &mut O, bytes: &[u8]) -> Result<(), SinkFault>
    ensures { TakesAll (O.written out.old) (O.written out.new) bytes.now (O.faults out.old) (O.faults out.new) result }
{
    let mut at = 0;
    while at < bytes.len() {
        at += out.put(&bytes[at..])?;
    }
    Ok(())
}
