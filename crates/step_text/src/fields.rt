ghost use Rattle.std.specs.Prelude.{◌≡◌, ◌++◌, codes, OnErr, OnOk};
ghost use Rattle.std.specs.Fmt.{decimal};
ghost use Rattle.xom_base.specs.declared.step.Stored.TheVariants as stored_variants;
ghost use Rattle.text_pieces.specs.Pieces.{Begins, hex8};
ghost use Rattle.step_text.specs.StepTexts.{outer_fields, own_fields, received_text, released_text, step_end_text, step_fields, stored_text, writes_text};

use crate::pieces::push_low;
use text_pieces::{push_decimal, push_hex8, push_text};
use xom_base::{NoMemory, Received, Released, Step, StepEnd, Stored, Writes};

/// Adds the fields of a step to a text, with one space between each two and nothing behind the last:
/// its two addresses, the cells that it writes, the bytes that it stores, what it receives, what it
/// releases and how it ends, as `00000008 0000000c - - - r9=0000000c goes`. It costs constant time on
/// average, and takes memory for the text alone. Where memory runs out, a part of the fields may have
/// been added.
#[tactic(auto, unfolding(crate::specs::StepTexts::step_fields), using(text_pieces::proofs::HexTexts::begins_behind))]
pub fn push_step(text: &mut Vec<u8>, step: &Step) -> Result<(), NoMemory>
    ensures ok { OnOk result (text.new.items ≡ text.old.items ++ step_fields step.now) }
    ensures err { OnErr result (Begins text.old.items text.new.items) }
{
    push_own(text, step)?;
    push_text(text, " ")?;
    push_outer(text, step)
}

/// Adds where the guest was, and what it changed of its own.
#[tactic(auto, using(text_pieces::proofs::HexTexts::begins_behind))]
fn push_own(text: &mut Vec<u8>, step: &Step) -> Result<(), NoMemory>
    ensures ok { OnOk result (text.new.items ≡ text.old.items ++ own_fields step.now) }
    ensures err { OnErr result (Begins text.old.items text.new.items) }
{
    push_hex8(text, step.pc)?;
    push_value(text, " ", step.npc)?;
    push_text(text, " ")?;
    push_writes(text, step.writes)?;
    push_text(text, " ")?;
    push_stored(text, step.stored)
}

/// Adds what passed to and from the guest, and how the step ended.
#[tactic(auto, using(text_pieces::proofs::HexTexts::begins_behind))]
fn push_outer(text: &mut Vec<u8>, step: &Step) -> Result<(), NoMemory>
    ensures ok { OnOk result (text.new.items ≡ text.old.items ++ outer_fields step.now) }
    ensures err { OnErr result (Begins text.old.items text.new.items) }
{
    push_received(text, step.received)?;
    push_text(text, " ")?;
    push_released(text, step.released)?;
    push_text(text, " ")?;
    push_end(text, step.end)
}

fn push_writes(text: &mut Vec<u8>, writes: Writes) -> Result<(), NoMemory>
    ensures ok { OnOk result (text.new.items ≡ text.old.items ++ writes_text writes) }
    ensures err { OnErr result (Begins text.old.items text.new.items) }
{
    match writes {
        Writes::Nothing => push_text(text, "-"),
        Writes::One { reg, value } => push_cell(text, reg, value),
        Writes::Pair { hi, lo } => push_two(text, "hl=", hi, lo),
    }
}

#[tactic(auto, using(text_pieces::proofs::HexTexts::begins_behind))]
fn push_stored(text: &mut Vec<u8>, stored: Stored) -> Result<(), NoMemory>
    ensures ok { OnOk result (text.new.items ≡ text.old.items ++ stored_text stored) }
    ensures err { OnErr result (Begins text.old.items text.new.items) }
{
    match stored {
        Stored::Nothing => push_text(text, "-"),
        Stored::Bytes {
            address,
            count,
            value,
        } => push_bytes(text, address, count, value),
    }
}

fn push_received(text: &mut Vec<u8>, received: Received) -> Result<(), NoMemory>
    ensures ok { OnOk result (text.new.items ≡ text.old.items ++ received_text received) }
    ensures err { OnErr result (Begins text.old.items text.new.items) }
{
    match received {
        Received::Nothing => push_text(text, "-"),
        Received::Cell(value) => push_value(text, "cell=", value),
        Received::Null { address, value } => push_two(text, "null=", address, value),
        Received::Signal(n) => push_number(text, "signal=", n),
    }
}

fn push_released(text: &mut Vec<u8>, released: Released) -> Result<(), NoMemory>
    ensures ok { OnOk result (text.new.items ≡ text.old.items ++ released_text released) }
    ensures err { OnErr result (Begins text.old.items text.new.items) }
{
    match released {
        Released::Nothing => push_text(text, "-"),
        Released::Cell { reg, value } => push_cell(text, reg, value),
        Released::Null { address, value } => push_two(text, "null=", address, value),
    }
}

fn push_end(text: &mut Vec<u8>, end: StepEnd) -> Result<(), NoMemory>
    ensures ok { OnOk result (text.new.items ≡ text.old.items ++ step_end_text end) }
    ensures err { OnErr result (Begins text.old.items text.new.items) }
{
    match end {
        StepEnd::Goes => push_text(text, "goes"),
        StepEnd::Call(code) => push_number(text, "call=", code),
        StepEnd::Exit => push_text(text, "exit"),
    }
}

/// Adds stored bytes, behind their address and their number.
#[tactic(auto, using(text_pieces::proofs::HexTexts::begins_behind))]
fn push_bytes(text: &mut Vec<u8>, address: u32, count: u8, value: u32) -> Result<(), NoMemory>
    ensures ok { OnOk result (text.new.items ≡ text.old.items ++ stored_text (stored_variants.Bytes address count value)) }
    ensures err { OnErr result (Begins text.old.items text.new.items) }
{
    push_hex8(text, address)?;
    push_text(text, "+")?;
    push_decimal(text, u32::from(count))?;
    push_text(text, "=")?;
    push_low(text, count, value)
}

/// Adds a register and its value.
#[tactic(auto, using(text_pieces::proofs::HexTexts::begins_behind))]
fn push_cell(text: &mut Vec<u8>, reg: u8, value: u32) -> Result<(), NoMemory>
    ensures ok { OnOk result (text.new.items ≡ text.old.items ++ (codes "r" ++ (decimal reg ++ (codes "=" ++ hex8 value)))) }
    ensures err { OnErr result (Begins text.old.items text.new.items) }
{
    push_number(text, "r", u32::from(reg))?;
    push_value(text, "=", value)
}

/// Adds two values behind a name, as an address and what stands there.
#[tactic(auto, using(text_pieces::proofs::HexTexts::begins_behind))]
fn push_two(text: &mut Vec<u8>, name: &str, first: u32, second: u32) -> Result<(), NoMemory>
    ensures ok { OnOk result (text.new.items ≡ text.old.items ++ (name.now ++ (hex8 first ++ (codes ":" ++ hex8 second)))) }
    ensures err { OnErr result (Begins text.old.items text.new.items) }
{
    push_value(text, name, first)?;
    push_value(text, ":", second)
}

/// Adds a value behind a name.
#[tactic(auto, using(text_pieces::proofs::HexTexts::begins_behind))]
fn push_value(text: &mut Vec<u8>, name: &str, value: u32) -> Result<(), NoMemory>
    ensures ok { OnOk result (text.new.items ≡ text.old.items ++ (name.now ++ hex8 value)) }
    ensures err { OnErr result (Begins text.old.items text.new.items) }
{
    push_text(text, name)?;
    push_hex8(text, value)
}

/// Adds a number in decimal behind a name.
#[tactic(auto, using(text_pieces::proofs::HexTexts::begins_behind))]
fn push_number(text: &mut Vec<u8>, name: &str, n: u32) -> Result<(), NoMemory>
    ensures ok { OnOk result (text.new.items ≡ text.old.items ++ (name.now ++ decimal n)) }
    ensures err { OnErr result (Begins text.old.items text.new.items) }
{
    push_text(text, name)?;
    push_decimal(text, n)
}
