//! Sealed lines, registers and envelopes, with their messages. Keys are 32 bytes, ids 16, lines 32,
//! ciphertexts of registers 4.
//!
//! A vector that seals opens what came, too: where it doesn't open to what was sealed, the result ends
//! with `stays sealed`.
//!
//! - `seal_image_line KEY ID LINE PLAIN = CIPHERTEXT TAG`
//! - `seal_run_line KEY BOOT INSTALL LINE VERSION PLAIN = CIPHERTEXT TAG`
//! - `seal_register KEY BOOT INSTALL EPOCH REGISTER VALUE = CIPHERTEXT TAG`
//! - `seal_envelope MACHINE ID ENTRY LINES KEY = ENVELOPE`
//! - `open_run_line KEY BOOT INSTALL LINE VERSION CIPHERTEXT TAG = PLAIN` or `refused`
//! - `open_register KEY BOOT INSTALL EPOCH REGISTER CIPHERTEXT TAG = VALUE` or `refused`
//! - `open_envelope MACHINE ENVELOPE = ID ENTRY LINES KEY` or `refused`
//! - `image_line_message ID LINE CIPHERTEXT = LENGTH`, `run_line_message BOOT INSTALL LINE VERSION
//!   CIPHERTEXT = LENGTH`, `register_message BOOT INSTALL EPOCH REGISTER CIPHERTEXT = LENGTH`,
//!   `envelope_message ENVELOPE = LENGTH`
//! - `register_counter BOOT INSTALL EPOCH REGISTER = BLOCK`

ghost use Rattle.std.specs.Prelude.{◌≤◌};

use crate::args::Args;
use crate::fault::{Answer, Fault};
use crate::line::{Line, digits, number_or_none, word};
use std::alloc::Global;
use xom_base::Short;
use xom_seal::{
    LineKeys, LineName, RegName, SealedLine, SealedReg, Unwrapped, envelope_message, image_keys,
    line_message, register_counter, register_keys, register_message, run_keys, seal_line,
    seal_register, unseal_line, unseal_register, unwrap, wrap,
};

/// The result, or none where the kind isn't of this module.
pub fn answer(kind: &str, args: &Args) -> Option<Answer> {
    match (kind, args.len()) {
        ("seal_image_line", 4) => Some(image_line(args)),
        ("seal_run_line", 6) => Some(run_line(args)),
        ("seal_register", 6) => Some(register(args)),
        ("seal_envelope", 5) => Some(envelope(args)),
        ("open_run_line", 7) => Some(open_run_line(args)),
        ("open_register", 7) => Some(open_register(args)),
        ("open_envelope", 2) => Some(open_envelope(args)),
        ("register_counter", 4) => Some(counter_block(args)),
        _ => message(kind, args),
    }
}

// The kinds of messages.
fn message(kind: &str, args: &Args) -> Option<Answer> {
    match (kind, args.len()) {
        ("image_line_message", 3) => Some(image_line_message(args)),
        ("run_line_message", 5) => Some(run_line_message(args)),
        ("register_message", 5) => Some(message_of_register(args)),
        ("envelope_message", 1) => Some(message_of_envelope(args)),
        _ => None,
    }
}

fn image_line(args: &Args) -> Answer {
    let id = args.id(1)?;
    let name = LineName::Image {
        id,
        line: args.number32(2)?,
    };
    let keys = image_keys(&args.key(0)?, &id);
    sealed_line(args.alloc(), &name, &keys, &args.array(3)?)
}

fn run_line(args: &Args) -> Answer {
    let name = run_name(args, 1)?;
    let keys = run_keys(&args.key(0)?, args.number(1)?, args.number(2)?);
    sealed_line(args.alloc(), &name, &keys, &args.array(5)?)
}

fn sealed_line(alloc: Global, name: &LineName, keys: &LineKeys, plain: &[u8; 32]) -> Answer {
    let sealed = seal_line(name, keys, plain);
    let mut line = Line::new(alloc);
    line.hex(&sealed.ct);
    line.hex(&sealed.tag);
    if unseal_line(name, keys, &sealed) != Some(*plain) {
        line.word("stays sealed");
    }
    line.end()
}

// The name in the words from this place on.
fn run_name(args: &Args, place: usize) -> Result<LineName, Fault>
    requires { place ≤ 1 }
{
    Ok(LineName::Run {
        boot: args.number(place)?,
        install: args.number(place + 1)?,
        line: args.number32(place + 2)?,
        version: args.number(place + 3)?,
    })
}

fn open_run_line(args: &Args) -> Answer {
    let name = run_name(args, 1)?;
    let keys = run_keys(&args.key(0)?, args.number(1)?, args.number(2)?);
    let sealed = SealedLine {
        ct: args.array(5)?,
        tag: args.array(6)?,
    };
    match unseal_line(&name, &keys, &sealed) {
        Some(plain) => digits(args.alloc(), &plain),
        None => word(args.alloc(), "refused"),
    }
}

// The name in the words from this place on.
fn register_name(args: &Args, place: usize) -> Result<RegName, Fault>
    requires { place ≤ 1 }
{
    Ok(RegName {
        boot: args.number(place)?,
        install: args.number(place + 1)?,
        epoch: args.number(place + 2)?,
        reg: args.number8(place + 3)?,
    })
}

fn register(args: &Args) -> Answer {
    let name = register_name(args, 1)?;
    let keys = register_keys(&args.key(0)?, name.boot, name.install, name.epoch);
    let value = args.value(5)?;
    let sealed = seal_register(&name, &keys, value);
    let mut line = Line::new(args.alloc());
    line.hex(&sealed.ct);
    line.hex(&sealed.tag);
    if unseal_register(&name, &keys, &sealed) != Some(value) {
        line.word("stays sealed");
    }
    line.end()
}

fn open_register(args: &Args) -> Answer {
    let name = register_name(args, 1)?;
    let keys = register_keys(&args.key(0)?, name.boot, name.install, name.epoch);
    let sealed = SealedReg {
        ct: args.array(5)?,
        tag: args.array(6)?,
    };
    match unseal_register(&name, &keys, &sealed) {
        Some(value) => digits(args.alloc(), &value.to_be_bytes()),
        None => word(args.alloc(), "refused"),
    }
}

fn envelope(args: &Args) -> Answer {
    let machine = args.key(0)?;
    let contents = Unwrapped {
        id: args.id(1)?,
        entry: args.value(2)?,
        lines: args.number32(3)?,
        key: args.key(4)?,
    };
    let envelope = wrap(&machine, &contents);
    let mut line = Line::new(args.alloc());
    line.hex(&envelope);
    if unwrap(&machine, &envelope) != Some(contents) {
        line.word("stays sealed");
    }
    line.end()
}

fn open_envelope(args: &Args) -> Answer {
    let contents = unwrap(&args.key(0)?, &args.array(1)?);
    let mut line = Line::new(args.alloc());
    push_contents(&mut line, contents);
    line.end()
}

/// Adds what an envelope says, or that it was refused.
pub fn push_contents(line: &mut Line, contents: Option<Unwrapped>) {
    match contents {
        Some(contents) => {
            line.hex(&contents.id.0);
            line.value(contents.entry);
            line.number(u64::from(contents.lines));
            line.hex(&contents.key.0);
        }
        None => line.word("refused"),
    }
}

fn counter_block(args: &Args) -> Answer {
    let block = register_counter(&register_name(args, 0)?);
    digits(args.alloc(), &block)
}

fn length(args: &Args, message: &Short) -> Answer {
    number_or_none(args.alloc(), Some(message.len() as u64))
}

fn image_line_message(args: &Args) -> Answer {
    let name = LineName::Image {
        id: args.id(0)?,
        line: args.number32(1)?,
    };
    length(args, &line_message(&name, &args.array(2)?))
}

fn run_line_message(args: &Args) -> Answer {
    let name = run_name(args, 0)?;
    length(args, &line_message(&name, &args.array(4)?))
}

fn message_of_register(args: &Args) -> Answer {
    let name = register_name(args, 0)?;
    length(args, &register_message(&name, &args.array(4)?))
}

fn message_of_envelope(args: &Args) -> Answer {
    length(args, &envelope_message(&args.array(0)?))
}
