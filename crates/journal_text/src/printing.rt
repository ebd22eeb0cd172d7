ghost use Rattle.std.specs.Prelude.{◌≡◌, ◌++◌, IfOk, OnOk};
ghost use Rattle.std.specs.Fmt.{decimal};
ghost use Rattle.journal_text.specs.JournalTexts.{cause_text, entry_text, journal_line_text, journal_rule_text, journal_text, spaced_word};
ghost use Rattle.hex.specs.Hex.{encode_lower};

use std::alloc::Global;
use step_text::{fault_name, push_step};
use text_pieces::{push_bytes, push_decimal, push_decimal64, push_hex};
use xom_base::{ByteList, Cause, Entry, ImageId, NoMemory, Rule};
use xom_journal::Journal;

/// The text of a journal: one line an entry, in their order. It costs time linear in the text, and
/// memory for the text alone, which grows as a `Vec` does.
pub fn print_journal(alloc: Global, journal: &Journal) -> Result<ByteList, NoMemory>
    ensures { IfOk result (λ text. text ≡ journal_text journal.now.entries) }
{
    let mut text = Vec::new(alloc);
    for i in 0..journal.len() {
        if let Some(entry) = journal.get(i) {
            push_line(&mut text, &entry)?;
        }
    }
    Ok(ByteList::from_vec(text))
}

/// Adds the line of an entry to a text, with its end. Where memory runs out, a part may have been added.
#[tactic(auto, unfolding(crate::specs::JournalTexts::journal_line_text))]
pub fn push_line(text: &mut Vec<u8>, entry: &Entry) -> Result<(), NoMemory>
    ensures { OnOk result (text.new.items ≡ text.old.items ++ journal_line_text entry.now) }
{
    push_entry(text, entry)?;
    push_bytes(text, b"\n")
}

fn push_entry(text: &mut Vec<u8>, entry: &Entry) -> Result<(), NoMemory>
    ensures { OnOk result (text.new.items ≡ text.old.items ++ entry_text entry.now) }
{
    match entry {
        Entry::Install {
            install,
            slot,
            id,
            place,
            entry,
            lines,
        } => {
            push_numbered(text, b"install ", *install)?;
            push_image(text, *slot, id, *place, *entry, *lines)
        }
        Entry::Step { install, step } => {
            push_numbered(text, b"step ", *install)?;
            push_bytes(text, b" ")?;
            push_step(text, step)
        }
        Entry::Trap { install, cause } => {
            push_numbered(text, b"trap ", *install)?;
            push_bytes(text, b" ")?;
            push_cause(text, *cause)
        }
        Entry::Seal { key, message } => {
            push_bytes(text, b"seal ")?;
            push_two(text, key.bytes(), message.bytes())
        }
        Entry::Accept {
            key,
            message,
            place,
        } => {
            push_bytes(text, b"accept ")?;
            push_accept(text, key.bytes(), message.bytes(), *place)
        }
        Entry::Hash { preimage, digest } => {
            push_bytes(text, b"hash ")?;
            push_two(text, preimage.bytes(), digest.as_slice())
        }
        Entry::Stop { install, rule } => {
            push_numbered(text, b"stop ", *install)?;
            push_bytes(text, b" ")?;
            push_rule(text, *rule)
        }
        Entry::Kill { install } => push_numbered(text, b"kill ", *install),
        Entry::Out { byte } => push_numbered(text, b"out ", u64::from(*byte)),
    }
}

/// Adds the slot, the image and the places of an install.
fn push_image(
    text: &mut Vec<u8>,
    slot: u8,
    id: &ImageId,
    place: u32,
    entry: u32,
    lines: u32,
) -> Result<(), NoMemory>
    ensures { OnOk result (text.new.items ≡ text.old.items ++ (spaced_word (decimal slot) ++ (spaced_word (encode_lower id.now.0)
        ++ (spaced_word (decimal place) ++ (spaced_word (decimal entry) ++ spaced_word (decimal lines)))))) }
{
    push_spaced(text, u32::from(slot))?;
    push_bytes(text, b" ")?;
    push_hex(text, id.0.as_slice())?;
    push_spaced(text, place)?;
    push_spaced(text, entry)?;
    push_spaced(text, lines)
}

/// Adds a number of 64 bits behind a name.
fn push_numbered(text: &mut Vec<u8>, name: &[u8], n: u64) -> Result<(), NoMemory>
    ensures { OnOk result (text.new.items ≡ text.old.items ++ (name.now ++ decimal n)) }
{
    push_bytes(text, name)?;
    push_decimal64(text, n)
}

/// Adds a number behind a space.
fn push_spaced(text: &mut Vec<u8>, n: u32) -> Result<(), NoMemory>
    ensures { OnOk result (text.new.items ≡ text.old.items ++ spaced_word (decimal n)) }
{
    push_bytes(text, b" ")?;
    push_decimal(text, n)
}

/// Adds two hexadecimal words with a space between them.
fn push_two(text: &mut Vec<u8>, first: &[u8], second: &[u8]) -> Result<(), NoMemory>
    ensures { OnOk result (text.new.items ≡ text.old.items ++ (encode_lower first.now ++ spaced_word (encode_lower second.now))) }
{
    push_hex(text, first)?;
    push_bytes(text, b" ")?;
    push_hex(text, second)
}

/// Adds a key, a message and the place that they were read from.
fn push_accept(text: &mut Vec<u8>, key: &[u8], message: &[u8], place: u32) -> Result<(), NoMemory>
    ensures { OnOk result (text.new.items ≡ text.old.items ++ (encode_lower key.now ++ spaced_word (encode_lower message.now) ++ spaced_word (decimal place))) }
{
    push_two(text, key, message)?;
    push_spaced(text, place)
}

fn push_cause(text: &mut Vec<u8>, cause: Cause) -> Result<(), NoMemory>
    ensures { OnOk result (text.new.items ≡ text.old.items ++ cause_text cause) }
{
    match cause {
        Cause::Nothing => push_bytes(text, b"nothing"),
        Cause::Interrupt => push_bytes(text, b"interrupt"),
        Cause::Call(code) => push_named(text, b"call ", code),
        Cause::Page(page) => push_named(text, b"page ", page),
        Cause::Fault(kind) => {
            push_bytes(text, b"fault ")?;
            push_bytes(text, fault_name(kind).as_bytes())
        }
        Cause::Exit => push_bytes(text, b"exit"),
        Cause::Stopped(rule) => {
            push_bytes(text, b"stopped ")?;
            push_rule(text, rule)
        }
    }
}

/// Adds a rule: its name, and its line, level or register.
pub fn push_rule(text: &mut Vec<u8>, rule: Rule) -> Result<(), NoMemory>
    ensures { OnOk result (text.new.items ≡ text.old.items ++ journal_rule_text rule) }
{
    match rule {
        Rule::LineTag(line) => push_named(text, b"LineTag ", line),
        Rule::TreeNode(level) => push_named(text, b"TreeNode ", u32::from(level)),
        Rule::RegisterTag(reg) => push_named(text, b"RegisterTag ", u32::from(reg)),
        Rule::RegisterMissing(reg) => push_named(text, b"RegisterMissing ", u32::from(reg)),
    }
}

/// Adds a number behind a name.
fn push_named(text: &mut Vec<u8>, name: &[u8], n: u32) -> Result<(), NoMemory>
    ensures { OnOk result (text.new.items ≡ text.old.items ++ (name.now ++ decimal n)) }
{
    push_bytes(text, name)?;
    push_decimal(text, n)
}
