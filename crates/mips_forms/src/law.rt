ghost use Rattle.mips_forms.specs.FormLaws.{FormsDiffer, KindsOfForms, OperandsFit};

/// Laws and no code. Two instructions with one mnemonic and the same operands are the same; a
/// mnemonic takes operands of the same kinds wherever it stands; the operands of an instruction
/// that fits its word fit their fields.
pub fn forms_are_exact()
    ensures differ { FormsDiffer }
    ensures kinds { KindsOfForms }
    ensures fit { OperandsFit }
{}
