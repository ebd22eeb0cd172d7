ghost use Rattle.std.specs.Prelude.{◌≡◌, ◌≤◌, length, None, IfOk};
ghost use Rattle.xom_io.specs.Answers.{SinkTakes};
ghost use Rattle.xom_io.specs.Counts.{count_after_fault};

use crate::{Sink, SinkFault};
use std::io;
use std::io::ErrorKind;
use std::marker::Model;

/// The standard output as a sink. It tells nothing of what was written. It is seen as its count of
/// faults.
#[derive(Drop)]
pub struct StdSink<R: Print + Drop> {
    rt: R,
    faults: u64,
}

impl<R: Print + Drop> Model for StdSink<R> {
    ghost use Rattle.std.specs.Prelude.{ℕ};

    ghost Value = { ℕ };

    ghost view = { λ s. s.faults };
}

impl<R: Print + Drop> StdSink<R> {
    /// The standard output of this runtime. No fault is counted yet.
    pub fn new(rt: R) -> StdSink<R>
        ensures { result ≡ 0 }
    {
        StdSink { rt, faults: 0 }
    }
}

impl<R: Print + Drop> Sink for StdSink<R> {
    ghost written = { λ _. None };

    ghost faults = { λ count. count };

    fn put(&mut self, bytes: &[u8]) -> Result<usize, SinkFault>
        ensures takes { SinkTakes None None bytes.now self.old self.new result }
        ensures raised { result ≡ Err SinkFault.Failed → self.new ≡ count_after_fault self.old }
    {
        if bytes.is_empty() {
            return Ok(0);
        }
        match write_some(&self.rt, bytes) {
            Ok(n) if n > 0 => Ok(n),
            _ => {
                self.faults = self.faults.saturating_add(1);
                Err(SinkFault::Failed)
            }
        }
    }
}

// One write, tried again where a signal cut it off before it took a byte.
fn write_some<R: Print>(rt: &R, bytes: &[u8]) -> io::Result<usize>
    ensures { IfOk result (λ n. n ≤ length bytes.now) }
{
    for _ in 0..u64::MAX {
        match rt.write_some(bytes) {
            Err(e) if e.kind() == ErrorKind::Interrupted => {}
            answer => return answer,
        }
    }
    Err(io::Error::from(ErrorKind::Interrupted))
}
