ghost use Rattle.std.specs.Prelude.{◌≡◌};
ghost use Rattle.kernels.specs.Given.{IsGiven};
ghost use Rattle.kernels.specs.Turns.{copy_of, flip_of, show_of, turn_of, write_turn};

use crate::view_bytes::{byte_shown, copy_shown, put_byte};
use std::marker::Model;
use xom_base::{ByteList, Op};
use xom_machine::{Chunk, Kernel, View};
use xom_model::outcome::Turn;
use xom_script::{Script, ScriptLine};

/// A kernel that makes a turn of each line of a script, and halts behind the last. Contracts see the
/// lines that are left.
#[derive(Drop)]
pub struct ScriptKernel {
    script: Script,
    at: usize,
}

impl Model for ScriptKernel {
    ghost use Rattle.std.specs.Prelude.{List, drop, length, ◌≤◌};
    ghost use Rattle.xom_script.specs.declared.script_line.ScriptLine.{ScriptLine};

    ghost Value = { List ScriptLine };

    ghost view = { λ k. drop k.at k.script.lines };

    ghost invariant = { λ k. k.at ≤ length k.script.lines };
}

impl ScriptKernel {
    /// A kernel before its first turn.
    pub fn new(script: Script) -> ScriptKernel
        ensures { result ≡ script.lines }
    {
        ScriptKernel { script, at: 0 }
    }
}

impl Kernel for ScriptKernel {
    ghost use Rattle.kernels.specs.Turns.{script_told};

    ghost told = { script_told };

    /// The turn of the next line. It costs time linear in the bytes that the line writes.
    fn next(&mut self, view: &View, chunk: &mut Chunk) -> Turn {
        let lines = self.script.lines.as_slice();
        if self.at < lines.len() {
            let turn = turn(&lines[self.at], view, chunk);
            self.at += 1;
            turn
        } else {
            Turn::Do(Op::Halt)
        }
    }
}

/// The turn of a line, with its bytes at the front of the chunk.
fn turn(line: &ScriptLine, view: &View, chunk: &mut Chunk) -> Turn
    ensures { IsGiven (turn_of view.now line.now) result chunk.new }
{
    match line {
        ScriptLine::Do(op) => Turn::Do(*op),
        ScriptLine::Write { address, bytes } => write(*address, bytes, chunk),
        ScriptLine::Copy { from, to, length } => copy(*from, *to, *length, view, chunk),
        ScriptLine::Flip { address, mask } => flip(*address, *mask, view, chunk),
        ScriptLine::Show => show(view),
    }
}

/// A kernel write of these bytes, of the first 8,192 where there are more.
fn write(address: u32, bytes: &ByteList, chunk: &mut Chunk) -> Turn
    ensures { IsGiven (write_turn address bytes.now) result chunk.new }
{
    let length = bytes.len().min(Chunk::SIZE as usize);
    chunk.put(0, &bytes.as_slice()[..length]);
    Turn::Write {
        address,
        length: length as u32,
    }
}

/// A kernel write of bytes that stand in RAM now.
fn copy(from: u32, to: u32, length: u32, view: &View, chunk: &mut Chunk) -> Turn
    ensures { IsGiven (copy_of view.now from to length) result chunk.new }
{
    let length = length.min(Chunk::SIZE);
    copy_shown(view, from, length, chunk);
    Turn::Write {
        address: to,
        length,
    }
}

/// A kernel write of the byte that stands in RAM now, with the bits of a mask turned over.
fn flip(address: u32, mask: u8, view: &View, chunk: &mut Chunk) -> Turn
    ensures { IsGiven (flip_of view.now address mask) result chunk.new }
{
    put_byte(chunk, 0, byte_shown(view, u64::from(address)) ^ mask);
    Turn::Write { address, length: 1 }
}

/// Prints the status as a digit.
fn show(view: &View) -> Turn
    ensures { result ≡ (show_of view.now).0 }
{
    let digit = 48 + view.status() % 256;
    Turn::Do(Op::Out {
        byte: (digit % 256) as u8,
    })
}
