ghost use Rattle.std.specs.Prelude.{◌≡◌, All, IfOk, map};
ghost use Rattle.text_lines.specs.Lines.{AnswersRead, AnswersText};
ghost use Rattle.xom_debug.specs.Commands.{AreCommands, CommandKeepsRules, IsBadCommandLine, command_of, command_of_one as of_one_word, command_of_three as of_three_words, command_of_two as of_two_words, commands_at, ram_command, reg_command, slot_command, step_command, until_command};

use crate::command::{Command, CommandList};
use std::alloc::Global;
use std::marker::Model;
use text_lines::{LineFault, LineFormat, TextFault, number, number_below, read_lines, words};

/// Reads the commands of a debugger, one a line, by the general rules of lines, words and comments:
/// `step N`, `until trap`, `reg R` with R 1 to 33, `slot S` with S 1 to 16, `last`, and `ram A N` with
/// A below 2^32 and N at most 64. The fault is `Line` with the number of the first bad line, counted
/// from 1, or `NoMemory`. It costs time linear in the text.
pub fn read_commands(alloc: Global, text: &[u8]) -> Result<CommandList, TextFault>
    // What is read is in the grammar, what is in the grammar is read, and a line is the first bad one.
    ensures text { AnswersText (AreCommands text.now) (IsBadCommandLine text.now) result }
    ensures value { AnswersRead (commands_at text.now) result }

    // What `debug` wants of its commands.
    ensures rules { IfOk result (λ commands. All CommandKeepsRules commands) }
{
    commands_in(alloc, text)
}

#[tactic(auto, unfolding(crate::specs::Commands::commands_at))]
fn commands_in(alloc: Global, text: &[u8]) -> Result<CommandList, TextFault>
    ensures { AnswersRead (commands_at text.now) result }
{
    let mut format = CommandFormat;
    let commands = read_lines(alloc, text, &mut format)?;
    Ok(CommandList::from_vec(commands))
}

/// A line of commands is told by its words alone.
#[derive(Drop)]
struct CommandFormat;

impl Model for CommandFormat {
    ghost Value = { Unit {0} };

    ghost view = { λ _. tt };
}

impl LineFormat for CommandFormat {
    ghost use Rattle.xom_debug.specs.Commands.{command_step};

    type Item = Command;

    ghost step = { command_step };

    fn read(&mut self, alloc: Global, _: u64, line: &[u8]) -> Result<Option<Command>, LineFault> {
        let words = words(alloc, line)?;
        if words.is_empty() {
            return Ok(None);
        }
        match command(words.as_slice()) {
            Some(command) => Ok(Some(command)),
            None => Err(LineFault::Bad),
        }
    }
}

/// The command that these words write.
#[tactic(auto, unfolding(crate::specs::Commands::command_of))]
fn command(words: &[&[u8]]) -> Option<Command>
    ensures { result ≡ command_of (map (λ word. word.now) words.now) }
{
    match words {
        [name] => of_one(name),
        [name, a] => of_two(name, a),
        [name, a, b] => of_three(name, a, b),
        _ => None,
    }
}

#[tactic(auto, unfolding(crate::specs::Commands::command_of_one))]
fn of_one(name: &[u8]) -> Option<Command>
    ensures { result ≡ of_one_word name.now }
{
    if name == b"last".as_slice() {
        Some(Command::Last)
    } else {
        None
    }
}

#[tactic(auto, unfolding(crate::specs::Commands::command_of_two))]
fn of_two(name: &[u8], a: &[u8]) -> Option<Command>
    ensures { result ≡ of_two_words name.now a.now }
{
    if name == b"step".as_slice() {
        step(a)
    } else if name == b"until".as_slice() {
        until(a)
    } else if name == b"reg".as_slice() {
        reg(a)
    } else if name == b"slot".as_slice() {
        slot(a)
    } else {
        None
    }
}

#[tactic(auto, unfolding(crate::specs::Commands::command_of_three))]
fn of_three(name: &[u8], a: &[u8], b: &[u8]) -> Option<Command>
    ensures { result ≡ of_three_words name.now a.now b.now }
{
    if name == b"ram".as_slice() {
        ram(a, b)
    } else {
        None
    }
}

#[tactic(auto, unfolding(crate::specs::Commands::step_command))]
fn step(count: &[u8]) -> Option<Command>
    ensures { result ≡ step_command count.now }
{
    let count = number(count)?;
    Some(Command::Step(count))
}

#[tactic(auto, unfolding(crate::specs::Commands::until_command))]
fn until(event: &[u8]) -> Option<Command>
    ensures { result ≡ until_command event.now }
{
    if event == b"trap".as_slice() {
        Some(Command::UntilTrap)
    } else {
        None
    }
}

#[tactic(auto, unfolding(crate::specs::Commands::reg_command))]
fn reg(reg: &[u8]) -> Option<Command>
    ensures { result ≡ reg_command reg.now }
{
    let reg = number_below(reg, 34)?;
    (reg >= 1).then_some(Command::Reg(reg as u8))
}

#[tactic(auto, unfolding(crate::specs::Commands::slot_command))]
fn slot(slot: &[u8]) -> Option<Command>
    ensures { result ≡ slot_command slot.now }
{
    let slot = number_below(slot, 17)?;
    (slot >= 1).then_some(Command::Slot(slot as u8))
}

#[tactic(auto, unfolding(crate::specs::Commands::ram_command))]
fn ram(address: &[u8], count: &[u8]) -> Option<Command>
    ensures { result ≡ ram_command address.now count.now }
{
    let address = number_below(address, 1 << 32)?;
    let count = number_below(count, 65)?;
    Some(Command::Ram {
        address: address as u32,
        count: count as u8,
    })
}
