ghost use Rattle.std.specs.Prelude.{◌≡◌};
ghost use Rattle.xom_base.specs.Entries.{step_in as step_in_of};
ghost use Rattle.mips_plain.specs.Follows.{given_of as given_by, is_step};
ghost use Rattle.mips_plain.specs.Machine.{plain as plain_of};
ghost use Rattle.trace_judge.specs.Judgement.{end_in as end_by};

use crate::GuestEnd;
use mips_plain::{Given, Plain, PlainStep};
use xom_base::{Entry, Received, Step, StepEnd, step_eq};

/// The step of an install in an entry.
pub fn step_in(install: u64, entry: &Entry) -> Option<Step>
    ensures { result ≡ step_in_of install entry.now }
{
    match *entry {
        Entry::Step { install: n, step } if n == install => Some(step),
        _ => None,
    }
}

/// The end of an install in an entry.
pub fn end_in(install: u64, entry: &Entry) -> Option<GuestEnd>
    ensures { result ≡ end_by install entry.now }
{
    match *entry {
        Entry::Step { install: n, step } if n == install => match step.end {
            StepEnd::Exit => Some(GuestEnd::Ended),
            _ => None,
        },
        Entry::Stop { install: n, rule } if n == install => Some(GuestEnd::Stopped(rule)),
        Entry::Kill { install: n } if n == install => Some(GuestEnd::Killed),
        _ => None,
    }
}

/// Whether the plain machine, given what the step received, does this step.
pub fn does(plain: &mut Plain, step: &Step) -> bool
    ensures answer { result ≡ is_step step.now (plain_of plain.old (given_by step.now.received)).0 }
    ensures state { plain.new ≡ (plain_of plain.old (given_by step.now.received)).1 }
{
    match plain.step(given_of(step.received)) {
        PlainStep::Did(done) => step_eq(&done, step),
        _ => false,
    }
}

/// What a step was given.
fn given_of(received: Received) -> Given
    ensures { result ≡ given_by received }
{
    match received {
        Received::Nothing => Given::Nothing,
        Received::Cell(value) => Given::Value(value),
        Received::Null {
            address: _address,
            value,
        } => Given::Value(value),
        Received::Signal(n) => Given::Signal(n),
    }
}
