ghost use Rattle.std.specs.Prelude.{◌≡◌, IfOk, map, option_map};
ghost use Rattle.xom_script.specs.RunLines.{at_line, boot_line, budget_line, every_line, frames_line, guest_and_input_line, guest_line, interrupt_line, kernel_choice, machine_line, never_line, owner_line, pages_line, poke_line, run_line_of, times_of};

use crate::run_file::{KernelLine, OwnerFile};
use crate::words::{name, write_bytes};
use std::alloc::Global;
use text_lines::{hex16, hex32, number, number_below, number32};
use xom_base::{ImageId, Interrupts, Key256, NoMemory, NumberList, Poke};
use xom_io::Name;

/// One line of a run file.
#[derive(Drop)]
pub enum RunLine {
    /// The machine key.
    Machine(Key256),
    /// The number of the power-on.
    Boot(u64),
    /// How many frames RAM has.
    Frames(u32),
    /// At most how many events are made.
    Budget(u64),
    /// The owner of an image.
    Owner(OwnerFile),
    /// A guest: its sealed image file, and maybe its input file.
    Guest { sealed: Name, input: Option<Name> },
    /// What the kernel does.
    Kernel(KernelLine),
    /// The interrupt line.
    Interrupt(Interrupts),
    /// A write of the bus.
    Poke(Poke),
}

/// The line that these words write, wherever it stands.
#[tactic(auto, unfolding(crate::specs::RunLines::run_line_of))]
pub fn run_line(alloc: Global, words: &[&[u8]]) -> Result<Option<RunLine>, NoMemory>
    ensures { IfOk result (λ found. found ≡ run_line_of (map (λ word. word.now) words.now)) }
{
    let [kind, words @ ..] = words else {
        return Ok(None);
    };
    if *kind == b"machine".as_slice() {
        Ok(machine(words))
    } else if *kind == b"boot".as_slice() {
        Ok(boot(words))
    } else if *kind == b"frames".as_slice() {
        Ok(frames(words))
    } else if *kind == b"budget".as_slice() {
        Ok(budget(words))
    } else if *kind == b"owner".as_slice() {
        owner(alloc, words)
    } else if *kind == b"guest".as_slice() {
        guest(alloc, words)
    } else if *kind == b"kernel".as_slice() {
        kernel(alloc, words)
    } else if *kind == b"interrupt".as_slice() {
        interrupt(alloc, words)
    } else if *kind == b"poke".as_slice() {
        poke(alloc, words)
    } else {
        Ok(None)
    }
}

#[tactic(auto, unfolding(crate::specs::RunLines::machine_line))]
fn machine(words: &[&[u8]]) -> Option<RunLine>
    ensures { result ≡ machine_line (map (λ word. word.now) words.now) }
{
    match words {
        [key] => Some(RunLine::Machine(Key256(hex32(key)?))),
        _ => None,
    }
}

#[tactic(auto, unfolding(crate::specs::RunLines::boot_line))]
fn boot(words: &[&[u8]]) -> Option<RunLine>
    ensures { result ≡ boot_line (map (λ word. word.now) words.now) }
{
    match words {
        [n] => Some(RunLine::Boot(number_below(n, 1 << 63)?)),
        _ => None,
    }
}

#[tactic(auto, unfolding(crate::specs::RunLines::frames_line))]
fn frames(words: &[&[u8]]) -> Option<RunLine>
    ensures { result ≡ frames_line (map (λ word. word.now) words.now) }
{
    match words {
        [n] => {
            let frames = number_below(n, 8193)?;
            (frames >= 4).then_some(RunLine::Frames(frames as u32))
        }
        _ => None,
    }
}

#[tactic(auto, unfolding(crate::specs::RunLines::budget_line))]
fn budget(words: &[&[u8]]) -> Option<RunLine>
    ensures { result ≡ budget_line (map (λ word. word.now) words.now) }
{
    match words {
        [n] => Some(RunLine::Budget(number_below(n, 1_048_577)?)),
        _ => None,
    }
}

#[tactic(auto, unfolding(crate::specs::RunLines::owner_line))]
fn owner(alloc: Global, words: &[&[u8]]) -> Result<Option<RunLine>, NoMemory>
    ensures { IfOk result (λ found. found ≡ owner_line (map (λ word. word.now) words.now)) }
{
    let [plain, key, id] = words else {
        return Ok(None);
    };
    let Some(plain) = name(alloc, plain)? else {
        return Ok(None);
    };
    let Some(key) = hex32(key) else {
        return Ok(None);
    };
    let Some(id) = hex16(id) else {
        return Ok(None);
    };
    Ok(Some(RunLine::Owner(OwnerFile {
        plain,
        key: Key256(key),
        id: ImageId(id),
    })))
}

#[tactic(auto, unfolding(crate::specs::RunLines::guest_line))]
fn guest(alloc: Global, words: &[&[u8]]) -> Result<Option<RunLine>, NoMemory>
    ensures { IfOk result (λ found. found ≡ guest_line (map (λ word. word.now) words.now)) }
{
    match words {
        [sealed] => match name(alloc, sealed)? {
            Some(sealed) => Ok(Some(RunLine::Guest {
                sealed,
                input: None,
            })),
            None => Ok(None),
        },
        [sealed, input] => guest_with_input(alloc, sealed, input),
        _ => Ok(None),
    }
}

#[tactic(auto, unfolding(crate::specs::RunLines::guest_and_input_line))]
fn guest_with_input(alloc: Global, sealed: &[u8], input: &[u8]) -> Result<Option<RunLine>, NoMemory>
    ensures { IfOk result (λ found. found ≡ guest_and_input_line sealed.now input.now) }
{
    let Some(sealed) = name(alloc, sealed)? else {
        return Ok(None);
    };
    match name(alloc, input)? {
        Some(input) => Ok(Some(RunLine::Guest {
            sealed,
            input: Some(input),
        })),
        None => Ok(None),
    }
}

#[tactic(auto, unfolding(crate::specs::RunLines::kernel_choice))]
fn kernel(alloc: Global, words: &[&[u8]]) -> Result<Option<RunLine>, NoMemory>
    ensures { IfOk result (λ found. found ≡ kernel_choice (map (λ word. word.now) words.now)) }
{
    let [kind, word] = words else {
        return Ok(None);
    };
    if *kind == b"script".as_slice() {
        Ok(name(alloc, word)?.map(|name| RunLine::Kernel(KernelLine::Script(name))))
    } else if *kind == b"image".as_slice() {
        Ok(name(alloc, word)?.map(|name| RunLine::Kernel(KernelLine::Image(name))))
    } else if *kind == b"xomos".as_slice() {
        Ok(pages(word))
    } else {
        Ok(None)
    }
}

#[tactic(auto, unfolding(crate::specs::RunLines::pages_line))]
fn pages(word: &[u8]) -> Option<RunLine>
    ensures { result ≡ pages_line word.now }
{
    let pages = number_below(word, 257)?;
    (pages >= 2).then_some(RunLine::Kernel(KernelLine::Xomos(pages as u32)))
}

#[tactic(auto, unfolding(crate::specs::RunLines::interrupt_line))]
fn interrupt(alloc: Global, words: &[&[u8]]) -> Result<Option<RunLine>, NoMemory>
    ensures { IfOk result (λ found. found ≡ interrupt_line (map (λ word. word.now) words.now)) }
{
    let [kind, words @ ..] = words else {
        return Ok(None);
    };
    if *kind == b"never".as_slice() {
        Ok(never(words))
    } else if *kind == b"every".as_slice() {
        Ok(every(words))
    } else if *kind == b"at".as_slice() {
        at(alloc, words)
    } else {
        Ok(None)
    }
}

#[tactic(auto, unfolding(crate::specs::RunLines::never_line))]
fn never(words: &[&[u8]]) -> Option<RunLine>
    ensures { result ≡ never_line (map (λ word. word.now) words.now) }
{
    match words {
        [] => Some(RunLine::Interrupt(Interrupts::Never)),
        _ => None,
    }
}

#[tactic(auto, unfolding(crate::specs::RunLines::every_line))]
fn every(words: &[&[u8]]) -> Option<RunLine>
    ensures { result ≡ every_line (map (λ word. word.now) words.now) }
{
    match words {
        [n] => {
            let n = number(n)?;
            (n >= 1).then_some(RunLine::Interrupt(Interrupts::Every(n)))
        }
        _ => None,
    }
}

#[tactic(auto, unfolding(crate::specs::RunLines::at_line))]
fn at(alloc: Global, words: &[&[u8]]) -> Result<Option<RunLine>, NoMemory>
    ensures { IfOk result (λ found. found ≡ at_line (map (λ word. word.now) words.now)) }
{
    if words.is_empty() {
        return Ok(None);
    }
    match times(alloc, words)? {
        Some(times) => Ok(Some(RunLine::Interrupt(Interrupts::At(times)))),
        None => Ok(None),
    }
}

/// The numbers of these words, which ascend strictly from at least 1.
fn times(alloc: Global, words: &[&[u8]]) -> Result<Option<NumberList>, NoMemory>
    ensures { IfOk result (λ found. found ≡ times_of 0 (map (λ word. word.now) words.now)) }
{
    let mut times = NumberList::new(alloc);
    let mut last = 0;
    for word in words {
        let Some(time) = number(word) else {
            return Ok(None);
        };
        if time <= last {
            return Ok(None);
        }
        times.push(time)?;
        last = time;
    }
    Ok(Some(times))
}

#[tactic(auto, unfolding(crate::specs::RunLines::poke_line))]
fn poke(alloc: Global, words: &[&[u8]]) -> Result<Option<RunLine>, NoMemory>
    ensures { IfOk result (λ found. found ≡ poke_line (map (λ word. word.now) words.now)) }
{
    let [event, address, bytes] = words else {
        return Ok(None);
    };
    let Some(event) = number(event) else {
        return Ok(None);
    };
    let Some(address) = number32(address) else {
        return Ok(None);
    };
    match write_bytes(alloc, bytes)? {
        Some(bytes) => Ok(Some(RunLine::Poke(Poke {
            event,
            address,
            bytes,
        }))),
        None => Ok(None),
    }
}
