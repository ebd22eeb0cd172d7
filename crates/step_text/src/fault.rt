ghost use Rattle.std.specs.Prelude.{◌≡◌};
ghost use Rattle.step_text.specs.StepTexts.{own_fault_text};

use xom_base::OwnFault;

/// The name of a guest's own fault, as texts have it: `Reserved`, `Foreign`, `Overflow`, `Address` or
/// `Break`.
pub fn fault_name(fault: OwnFault) -> &'static str
    ensures { result.now ≡ own_fault_text fault }
{
    match fault {
        OwnFault::Reserved => "Reserved",
        OwnFault::Foreign => "Foreign",
        OwnFault::Overflow => "Overflow",
        OwnFault::Address => "Address",
        OwnFault::Break => "Break",
    }
}
