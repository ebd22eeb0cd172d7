ghost use Rattle.std.specs.Prelude.{◌≡◌, IfOk, map};
ghost use Rattle.xom_script.specs.ScriptLines.{kernel_write_line, no_word_line, one_word_line, script_line_of, three_word_line, two_word_line};

use crate::words::write_bytes;
use std::alloc::Global;
use text_lines::number32;
use xom_base::{ByteList, List, NoMemory, Op};

/// What a kernel that follows a script does at one turn.
#[derive(Drop)]
pub enum ScriptLine {
    /// A privileged operation.
    Do(Op),
    /// Writes 1 to 8,192 bytes into RAM.
    Write { address: u32, bytes: ByteList },
    /// Writes 1 to 8,192 bytes that stand in RAM at this turn to another place of RAM.
    Copy { from: u32, to: u32, length: u32 },
    /// Turns over the bits of this mask in one byte of RAM.
    Flip { address: u32, mask: u8 },
    /// Prints the status of the last operation or write, as a digit.
    Show,
}

/// A growing list of the lines of a script.
pub type ScriptLineList = List<ScriptLine>;

/// The line that these words write.
#[tactic(auto, unfolding(crate::specs::ScriptLines::script_line_of))]
pub fn script_line(alloc: Global, words: &[&[u8]]) -> Result<Option<ScriptLine>, NoMemory>
    ensures { IfOk result (λ found. found ≡ script_line_of (map (λ word. word.now) words.now)) }
{
    match words {
        [name] => Ok(line_of_none(name)),
        [name, a] => Ok(line_of_one(name, a)),
        [name, a, b] if *name == b"write".as_slice() => write(alloc, a, b),
        [name, a, b] => Ok(line_of_two(name, a, b)),
        [name, a, b, c] => Ok(line_of_three(name, a, b, c)),
        _ => Ok(None),
    }
}

#[tactic(auto, unfolding(crate::specs::ScriptLines::kernel_write_line))]
fn write(alloc: Global, address: &[u8], bytes: &[u8]) -> Result<Option<ScriptLine>, NoMemory>
    ensures { IfOk result (λ found. found ≡ kernel_write_line address.now bytes.now) }
{
    let Some(address) = number32(address) else {
        return Ok(None);
    };
    match write_bytes(alloc, bytes)? {
        Some(bytes) => Ok(Some(ScriptLine::Write { address, bytes })),
        None => Ok(None),
    }
}

#[tactic(auto, unfolding(crate::specs::ScriptLines::no_word_line))]
fn line_of_none(name: &[u8]) -> Option<ScriptLine>
    ensures { result ≡ no_word_line name.now }
{
    if name == b"halt".as_slice() {
        Some(ScriptLine::Do(Op::Halt))
    } else if name == b"show".as_slice() {
        Some(ScriptLine::Show)
    } else {
        None
    }
}

#[tactic(auto, unfolding(crate::specs::ScriptLines::one_word_line))]
fn line_of_one(name: &[u8], a: &[u8]) -> Option<ScriptLine>
    ensures { result ≡ one_word_line name.now a.now }
{
    let a = number32(a)?;
    if name == b"enter".as_slice() {
        Some(ScriptLine::Do(Op::Enter { slot: a }))
    } else if name == b"kill".as_slice() {
        Some(ScriptLine::Do(Op::Kill { slot: a }))
    } else if name == b"out".as_slice() && a < 256 {
        Some(ScriptLine::Do(Op::Out { byte: a as u8 }))
    } else {
        None
    }
}

#[tactic(auto, unfolding(crate::specs::ScriptLines::two_word_line))]
fn line_of_two(name: &[u8], a: &[u8], b: &[u8]) -> Option<ScriptLine>
    ensures { result ≡ two_word_line name.now a.now b.now }
{
    let a = number32(a)?;
    let b = number32(b)?;
    if name == b"resume".as_slice() {
        Some(ScriptLine::Do(Op::Resume { slot: a, signal: b }))
    } else if name == b"unmap".as_slice() {
        Some(ScriptLine::Do(Op::Unmap { slot: a, page: b }))
    } else if name == b"setreg".as_slice() {
        Some(ScriptLine::Do(Op::SetReg { reg: a, value: b }))
    } else if name == b"flip".as_slice() && b < 256 {
        Some(ScriptLine::Flip {
            address: a,
            mask: b as u8,
        })
    } else {
        None
    }
}

#[tactic(auto, unfolding(crate::specs::ScriptLines::three_word_line))]
fn line_of_three(name: &[u8], a: &[u8], b: &[u8], c: &[u8]) -> Option<ScriptLine>
    ensures { result ≡ three_word_line name.now a.now b.now c.now }
{
    let a = number32(a)?;
    let b = number32(b)?;
    let c = number32(c)?;
    if name == b"install".as_slice() {
        Some(ScriptLine::Do(Op::Install {
            slot: a,
            envelope: b,
            area: c,
        }))
    } else if name == b"save".as_slice() {
        Some(ScriptLine::Do(Op::Save {
            slot: a,
            reg: b,
            address: c,
        }))
    } else if name == b"restore".as_slice() {
        Some(ScriptLine::Do(Op::Restore {
            slot: a,
            reg: b,
            address: c,
        }))
    } else if name == b"map".as_slice() {
        Some(ScriptLine::Do(Op::Map {
            slot: a,
            page: b,
            frame: c,
        }))
    } else if name == b"copy".as_slice() && 1 <= c && c <= 8192 {
        Some(ScriptLine::Copy {
            from: a,
            to: b,
            length: c,
        })
    } else {
        None
    }
}
