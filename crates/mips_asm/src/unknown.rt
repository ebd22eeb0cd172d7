ghost use Rattle.std.specs.Prelude.{◌≡◌};
ghost use Rattle.std.specs.List.{list_any};
ghost use Rattle.mips_asm.specs.LabelMaps.{place_in};
ghost use Rattle.mips_asm.specs.Passes.{AnswersPass, argument_unknown, content_unknown, unknown_line, value_unknown};

use crate::AsmFault;
use crate::labels::Labels;
use crate::placed::Placed;
use asm_source::{Argument, Content, Value};

/// Looks for the first name that no label has. It costs time linear in the source, beside the look-ups.
pub fn no_unknown(labels: &Labels, placed: &[Placed]) -> Result<(), AsmFault>
    ensures { AnswersPass AsmFault.UnknownName (unknown_line (place_in labels.now) placed.now) result }
{
    let unknown = placed
        .iter()
        .find(|placed| content_unknown(labels, placed.content()));
    match unknown {
        Some(placed) => Err(AsmFault::UnknownName(placed.line())),
        None => Ok(()),
    }
}

/// Whether a value of a statement is the name of no label.
fn content_unknown(labels: &Labels, content: &Content) -> bool
    ensures { result ≡ content_unknown (place_in labels.now) content.now }
{
    match content {
        Content::Words(values) => any_value_unknown(labels, values.as_slice()),
        Content::Entry(value) => value_unknown(labels, value),
        Content::LoadAddress(_, name) => labels.place(name.as_slice()).is_none(),
        Content::Instruction(_, arguments) => any_argument_unknown(labels, arguments.as_slice()),
        _ => false,
    }
}

fn any_value_unknown(labels: &Labels, values: &[Value]) -> bool
    ensures { result ≡ list_any (value_unknown (place_in labels.now)) values.now }
{
    values.iter().any(|value| value_unknown(labels, value))
}

fn any_argument_unknown(labels: &Labels, arguments: &[Argument]) -> bool
    ensures { result ≡ list_any (argument_unknown (place_in labels.now)) arguments.now }
{
    arguments
        .iter()
        .any(|argument| argument_unknown(labels, argument))
}

fn argument_unknown(labels: &Labels, argument: &Argument) -> bool
    ensures { result ≡ argument_unknown (place_in labels.now) argument.now }
{
    match argument {
        Argument::Value(value) | Argument::Offset(value, _) => value_unknown(labels, value),
        _ => false,
    }
}

fn value_unknown(labels: &Labels, value: &Value) -> bool
    ensures { result ≡ value_unknown (place_in labels.now) value.now }
{
    match value {
        Value::Number(_) => false,
        Value::Label(name) => labels.place(name.as_slice()).is_none(),
    }
}
