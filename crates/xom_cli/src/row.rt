ghost use Rattle.std.specs.Prelude.{◌≡◌, map, option_map, string_bytes};
ghost use Rattle.xom_cli.specs.Rows.{plain_row as plain_row_of, row_of_five as row_of_five_words, row_of_one as row_of_one_word, row_of_three as row_of_three_words, row_of_two as row_of_two_words, row_of_words, seal_row as seal_row_of};
ghost use Rattle.xom_cli.specs.Words.{row_of_words_of};

use text_lines::{hex16, hex32, number_below};
use xom_base::{ImageId, Key256};

/// The most steps that `plain` is asked for.
const MOST_STEPS: u64 = 1_048_576;

/// A row of the table of commands, with what its words say.
#[derive(Clone, Copy)]
pub enum Row<'a> {
    /// `asm SOURCE IMAGE`
    Asm {
        source: &'a String,
        image: &'a String,
    },
    /// `disasm IMAGE`
    Disasm {
        image: &'a String,
    },
    /// `plain IMAGE STEPS` or `plain IMAGE STEPS RECEIVED`
    Plain {
        image: &'a String,
        steps: u64,
        received: Option<&'a String>,
    },
    /// `seal IMAGE KEY ID MACHINE SEALED`
    Seal {
        image: &'a String,
        key: Key256,
        id: ImageId,
        machine: Key256,
        sealed: &'a String,
    },
    /// `run RUN`
    Run {
        run: &'a String,
    },
    /// `trace RUN` or `trace RUN JOURNAL`
    Trace {
        run: &'a String,
        journal: Option<&'a String>,
    },
    /// `judge RUN JOURNAL`
    Judge {
        run: &'a String,
        journal: &'a String,
    },
    /// `debug RUN COMMANDS`
    Debug {
        run: &'a String,
        commands: &'a String,
    },
}

/// The row that the words match, or none. The words come after the program's name.
pub fn row_named(words: &[String]) -> Option<Row<'_>>
    ensures { option_map row_of_words_of result ≡ row_of_words (map string_bytes words.now) }
{
    match words {
        [command, a] => row_of_one(command, a),
        [command, a, b] => row_of_two(command, a, b),
        [command, a, b, c] => row_of_three(command, a, b, c),
        [command, a, b, c, d, e] => row_of_five(command, a, b, c, d, e),
        _ => None,
    }
}

/// The row of a command with one word.
fn row_of_one<'a>(command: &String, a: &'a String) -> Option<Row<'a>>
    ensures { option_map row_of_words_of result ≡ row_of_one_word (string_bytes command.now) (string_bytes a.now) }
{
    match command.as_str() {
        "disasm" => Some(Row::Disasm { image: a }),
        "run" => Some(Row::Run { run: a }),
        "trace" => Some(Row::Trace {
            run: a,
            journal: None,
        }),
        _ => None,
    }
}

/// The row of a command with two words.
fn row_of_two<'a>(command: &String, a: &'a String, b: &'a String) -> Option<Row<'a>>
    ensures { option_map row_of_words_of result ≡ row_of_two_words (string_bytes command.now) (string_bytes a.now) (string_bytes b.now) }
{
    match command.as_str() {
        "asm" => Some(Row::Asm {
            source: a,
            image: b,
        }),
        "plain" => plain_row(a, b, None),
        "trace" => Some(Row::Trace {
            run: a,
            journal: Some(b),
        }),
        "judge" => Some(Row::Judge { run: a, journal: b }),
        "debug" => Some(Row::Debug {
            run: a,
            commands: b,
        }),
        _ => None,
    }
}

/// The row of a command with three words.
fn row_of_three<'a>(command: &String, a: &'a String, b: &String, c: &'a String) -> Option<Row<'a>>
    ensures { option_map row_of_words_of result ≡ row_of_three_words (string_bytes command.now) (string_bytes a.now) (string_bytes b.now) (string_bytes c.now) }
{
    match command.as_str() {
        "plain" => plain_row(a, b, Some(c)),
        _ => None,
    }
}

/// The row of a command with five words.
fn row_of_five<'a>(
    command: &String,
    a: &'a String,
    b: &String,
    c: &String,
    d: &String,
    e: &'a String,
) -> Option<Row<'a>>
    ensures { option_map row_of_words_of result ≡ row_of_five_words (string_bytes command.now) (string_bytes a.now) (string_bytes b.now) (string_bytes c.now) (string_bytes d.now) (string_bytes e.now) }
{
    match command.as_str() {
        "seal" => seal_row(a, b, c, d, e),
        _ => None,
    }
}

/// The row of `plain`, where the word for the steps is a number of at most 1,048,576.
fn plain_row<'a>(image: &'a String, steps: &String, received: Option<&'a String>) -> Option<Row<'a>>
    ensures { option_map row_of_words_of result ≡ plain_row_of (string_bytes image.now) (string_bytes steps.now) (option_map (λ name. string_bytes name.now) received.entry) }
{
    let steps = number_below(steps.as_bytes(), MOST_STEPS + 1)?;
    Some(Row::Plain {
        image,
        steps,
        received,
    })
}

/// The row of `seal`, where KEY and MACHINE are 64 hexadecimal digits and ID is 32, in either case.
#[tactic(auto, unfolding(crate::specs::Rows::seal_row))]
fn seal_row<'a>(
    image: &'a String,
    key: &String,
    id: &String,
    machine: &String,
    sealed: &'a String,
) -> Option<Row<'a>>
    ensures { option_map row_of_words_of result ≡ seal_row_of (string_bytes image.now) (string_bytes key.now) (string_bytes id.now) (string_bytes machine.now) (string_bytes sealed.now) }
{
    let key = hex32(key.as_bytes())?;
    let id = hex16(id.as_bytes())?;
    let machine = hex32(machine.as_bytes())?;
    Some(Row::Seal {
        image,
        key: Key256(key),
        id: ImageId(id),
        machine: Key256(machine),
        sealed,
    })
}
