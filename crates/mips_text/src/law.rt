ghost use Rattle.mips_text.specs.TextLaws.{ValuesDiffer, WordsAreListed};

/// Laws and no code. The number that stands for an operand tells it from all others of its kind; a
/// word is listed by its instruction, or as it is where it is reserved.
pub fn texts_are_exact()
    ensures values { ValuesDiffer }
    ensures words { WordsAreListed }
{}
