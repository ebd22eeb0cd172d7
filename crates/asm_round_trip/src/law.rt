ghost use Rattle.asm_round_trip.specs.Listed.{ListingsAreAssembledAgain, WordsAreReadAgain};
ghost use Rattle.asm_round_trip.specs.Printed.{PrintedIsAssembled};

/// A law and no code: what is printed for an instruction is assembled to its word. Where an instruction
/// stands with its operands as they are printed for its place (registers as they are, numbers with their
/// sign, targets as addresses), its statement writes the instruction's word. The place is a multiple of 4
/// below 2^32 - 4.
pub fn what_is_printed_is_assembled()
    ensures { PrintedIsAssembled }
{}

/// A law and no code: the text that a listing shows for a word is a line of a source, and that line
/// writes the word again at its place.
pub fn listed_words_are_read_again()
    ensures { WordsAreReadAgain }
{}

/// A law and no code: the texts of a listing, in their order, are a source of the image that was listed,
/// with its last word filled up by zeros and the entry 0.
pub fn listings_are_assembled_again()
    ensures { ListingsAreAssembledAgain }
{}
