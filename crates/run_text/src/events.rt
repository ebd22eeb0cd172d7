ghost use Rattle.std.specs.Prelude.{◌≡◌, ◌++◌, OnOk};
ghost use Rattle.run_text.specs.EventsLine.{events_text, fault_word as fault_word_of, kernel_fault_text, kind_text};

use text_pieces::{push_decimal64, push_hex8, push_text};
use xom_base::NoMemory;
use xom_model::outcome::NullFault;

/// Adds the line on a run's events: how many there were, and how the run ended: by Halt, by a fault of the
/// null instruction at an address, or since the budget was reached.
pub fn push_events(
    text: &mut Vec<u8>,
    events: u64,
    halted: bool,
    fault: Option<(u32, NullFault)>,
) -> Result<(), NoMemory>
    ensures { OnOk result (text.new.items ≡ text.old.items ++ events_text events halted fault) }
{
    push_text(text, "events ")?;
    push_decimal64(text, events)?;
    if !halted {
        return push_text(text, " budget\n");
    }
    match fault {
        None => push_text(text, " halted\n"),
        Some((at, why)) => push_fault(text, at, why),
    }
}

/// Adds the address of the null instruction that faulted, and its fault.
fn push_fault(text: &mut Vec<u8>, at: u32, why: NullFault) -> Result<(), NoMemory>
    ensures { OnOk result (text.new.items ≡ text.old.items ++ kernel_fault_text at why) }
{
    push_text(text, " kernel fault at ")?;
    push_hex8(text, at)?;
    push_kind(text, why)
}

/// Adds a fault of null code, and ends the line.
fn push_kind(text: &mut Vec<u8>, why: NullFault) -> Result<(), NoMemory>
    ensures { OnOk result (text.new.items ≡ text.old.items ++ kind_text why) }
{
    push_text(text, " ")?;
    push_text(text, fault_word(why))?;
    push_text(text, "\n")
}

/// The word for a fault of null code.
fn fault_word(why: NullFault) -> &'static str
    ensures { result.now ≡ fault_word_of why }
{
    match why {
        NullFault::Reserved => "Reserved",
        NullFault::Overflow => "Overflow",
        NullFault::Address => "Address",
        NullFault::Break => "Break",
        NullFault::Call => "Call",
    }
}
