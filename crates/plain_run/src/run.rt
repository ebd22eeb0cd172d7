ghost use Rattle.std.specs.Prelude.{◌≡◌, ◌++◌, ◌∷◌, [], List, ℕ, codes, IfOk, OnOk};
ghost use Rattle.mips_plain.specs.Machine.{start};
ghost use Rattle.plain_run.specs.Runs.{NextOfRun, lines_text, next as next_of, plain_end_text, run_alone_from, run_text, step_line, text_behind};
ghost use Rattle.std.specs.List.{flat_map};
ghost use Rattle.step_text.specs.StepTexts.{own_fault_text};

use crate::PlainEnd;
use mips_plain::{Given, Plain, PlainStep};
use std::alloc::Global;
use step_text::{fault_name, push_step};
use xom_base::{ByteList, NoMemory, OwnFault, PlainImage, Step};

/// Runs an image's program alone, for at most `steps` steps, and prints a line for each step that it
/// makes, and behind them one of why it made no further one: `ended`, `steps`, `fault KIND` or
/// `waiting`. Each instruction that receives is given the next value; values left over aren't looked
/// at. Its cost is one pass over private memory, and a constant for each step.
#[tactic(auto, unfolding(crate::specs::Runs::run_text))]
pub fn run_alone(
    alloc: Global,
    image: &PlainImage,
    steps: u64,
    received: &[u32],
) -> Result<ByteList, NoMemory>
    ensures { IfOk result (λ text. text ≡ run_text image.now steps received.now) }
{
    let mut plain = Plain::new(alloc, image)?;
    let mut text = Vec::new(alloc);
    let end = push_run(&mut text, &mut plain, steps, received)?;
    push_end(&mut text, end)?;
    Ok(ByteList::from_vec(text))
}

/// Adds the lines of the steps that the machine makes, and tells why it makes no further one.
fn push_run(
    text: &mut Vec<u8>,
    plain: &mut Plain,
    steps: u64,
    received: &[u32],
) -> Result<PlainEnd, NoMemory>
    ensures { IfOk result (λ end. (text.new.items, end) ≡ text_behind text.old.items (run_alone_from steps plain.old received.now)) }
{
    let mut left = steps;
    let mut values = received;
    while left > 0 {
        let (answer, others) = next(plain, values);
        match answer {
            PlainStep::Did(step) => push_line(text, &step)?,
            PlainStep::Fault(fault) => return Ok(PlainEnd::Fault(fault)),
            PlainStep::Unfit => return Ok(PlainEnd::Waiting),
            PlainStep::Over => return Ok(PlainEnd::Ended),
        }
        values = others;
        left -= 1;
    }
    Ok(if plain.is_over() {
        PlainEnd::Ended
    } else {
        PlainEnd::Steps
    })
}

/// What the machine does next, and the values left then: an instruction that receives is given the
/// first one.
#[tactic(auto, unfolding(crate::specs::Runs::next), using(crate::proofs::Steps::unfit_stays))]
fn next<'a>(plain: &mut Plain, values: &'a [u32]) -> (PlainStep, &'a [u32])
    ensures { record { answer = result.0; state = plain.new; values = result.1.now } ≡ next_of plain.old values.now }
{
    let answer = plain.step(Given::Nothing);
    let PlainStep::Unfit = answer else {
        return (answer, values);
    };
    match values.split_first() {
        Some((value, others)) => (plain.step(Given::Value(*value)), others),
        None => (answer, values),
    }
}

/// Adds the line of a step.
fn push_line(text: &mut Vec<u8>, step: &Step) -> Result<(), NoMemory>
    ensures { OnOk result (text.new.items ≡ text.old.items ++ step_line step.now) }
{
    push_step(text, step)?;
    Ok(text.push(b'\n')?)
}

/// Adds the line of why a run stopped.
fn push_end(text: &mut Vec<u8>, end: PlainEnd) -> Result<(), NoMemory>
    ensures { OnOk result (text.new.items ≡ text.old.items ++ (plain_end_text end ++ 10 ∷ [])) }
{
    match end {
        PlainEnd::Ended => Ok(text.extend_from_slice(b"ended\n")?),
        PlainEnd::Steps => Ok(text.extend_from_slice(b"steps\n")?),
        PlainEnd::Fault(fault) => push_fault(text, fault),
        PlainEnd::Waiting => Ok(text.extend_from_slice(b"waiting\n")?),
    }
}

/// Adds the line of a fault that is next.
fn push_fault(text: &mut Vec<u8>, fault: OwnFault) -> Result<(), NoMemory>
    ensures { OnOk result (text.new.items ≡ text.old.items ++ (codes "fault " ++ (own_fault_text fault ++ 10 ∷ []))) }
{
    text.extend_from_slice(b"fault ")?;
    text.extend_from_slice(fault_name(fault).as_bytes())?;
    Ok(text.push(b'\n')?)
}
