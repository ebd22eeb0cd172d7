ghost use Rattle.std.specs.Prelude.{◌≡◌, Option, List, ℕ, IfSome};
ghost use Rattle.xom_model.specs.declared.outcome.Turn.{Turn};
ghost use Rattle.xom_model.specs.Run.{event_of};
ghost use Rattle.xom_model.specs.Seen.{View as Shown};
ghost use Rattle.xom_machine.specs.Runs.{bytes_of_event};

use crate::{Chunk, View};
use xom_model::outcome::Turn;

/// Whoever decides what happens where no guest runs. Nothing is assumed of it.
pub trait Kernel {
    /// The turn that it gives next, the bytes that it puts first in the chunk, and its own state
    /// afterwards, where it tells them of its state and of what it is told of the machine.
    ghost told: { Self → Shown → Option (Turn × (List ℕ × Self)) };

    /// What it does next. The bytes of a kernel write are the first of the chunk.
    fn next(&mut self, view: &View, chunk: &mut Chunk) -> Turn
        ensures { IfSome (told self.old view.now) (λ t. (result ≡ t.0) × (bytes_of_event (event_of t.0) chunk.new ≡ bytes_of_event (event_of t.0) t.1.0) × (self.new ≡ t.1.1)) };
}
