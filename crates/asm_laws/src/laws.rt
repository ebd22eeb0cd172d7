ghost use Rattle.asm_laws.specs.Guests.{GuestsDoSo};
ghost use Rattle.asm_laws.specs.Replaced.{ImagesByNumbers, NumbersStandForLabels};
ghost use Rattle.asm_laws.specs.ShortForms.{BGoesToItsTarget, ImagesHaveTheirStatements, LaLoadsThePlace, LiLoadsTheNumber, MoveCopies, NopGoesOn};
ghost use Rattle.asm_laws.specs.Sizes.{PlacesAreWrittenOnce, StatementsHaveTheirSizes};
ghost use Rattle.asm_laws.specs.Texts.{CommentsSayNothing, LastLineEndSaysNothing, TokensSayAll};

/// What the words of the short forms do, at their place in memory. After `li r, n` the register is n
/// modulo 2^32, and after `la r, label` the place of the label, whatever the cells were; no other cell
/// is written, and $0 stays. `move a, b` gives a the value of b, where b may be read, and never faults
/// then; `nop` writes nothing, and `b` goes to its target behind the next instruction.
pub fn short_forms_mean_what_they_say()
    ensures li { LiLoadsTheNumber }
    ensures la { LaLoadsThePlace }
    ensures moves { MoveCopies }
    ensures nop { NopGoesOn }
    ensures b { BGoesToItsTarget }
{}

/// The image of a source has each of its statements as these laws want it: its bytes, at its place.
pub fn statements_stand_in_images()
    ensures { ImagesHaveTheirStatements }
{}

/// What a statement writes has its size, and no two statements of an image write one place.
pub fn places_are_written_once()
    ensures sizes { StatementsHaveTheirSizes }
    ensures once { PlacesAreWrittenOnce }
{}

/// For a guest these laws speak of what the plain machine does: of the instruction that it fetches at an
/// address of code, and of what this comes to.
pub fn words_do_what_guests_do()
    ensures { GuestsDoSo }
{}

/// A label in an operand, in a value of `.word` or in `.entry` may be replaced by the number of its place:
/// the statement writes the same bytes, and the whole source has the same image.
pub fn numbers_stand_for_labels()
    ensures statements { NumbersStandForLabels }
    ensures images { ImagesByNumbers }
{}

/// A source is what the tokens of its lines say: blanks and comments say nothing, and neither does a line
/// end behind the last line.
pub fn blanks_and_comments_say_nothing()
    ensures tokens { TokensSayAll }
    ensures comments { CommentsSayNothing }
    ensures last_line { LastLineEndSaysNothing }
{}
