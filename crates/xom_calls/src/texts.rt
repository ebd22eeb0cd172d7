//! Lists and payloads, and texts that are read line by line.

use crate::inputs::repeated;
use std::alloc::Global;
use std::test::Fail;
use text_lines::{LineFault, LineFormat, TextFault, read_lines, split_lines, words};
use text_pieces::{hex8, push_bytes, push_decimal, push_hex8};
use xom_base::{Block, ByteList, Interrupts, NumberList, Op, Payload, Short};
use xom_debug::{Command, read_commands};
use xom_script::{KernelLine, ScriptLine, read_run, read_script};

#[test]
fn lists_and_payloads_hold_what_is_put(rt: HostRuntime) -> Result<(), Fail> {
    let mut bytes = ByteList::new(rt.alloc());
    bytes.push(7)?;
    bytes.push(9)?;
    assert!(rt; bytes.as_slice() == [7, 9].as_slice());
    assert!(rt; bytes.get(2).is_none());
    let mut numbers = NumberList::new(rt.alloc());
    numbers.push(5)?;
    assert!(rt; numbers.as_slice() == [5].as_slice());
    assert!(rt; Short::new(&[1, 2, 3]).bytes() == [1, 2, 3].as_slice());
    assert!(rt; Block::new(&[0; 260]).bytes().len() == 260);
    assert!(rt; Payload::<2>::new(&[]).is_empty());
    Ok(())
}

#[test]
fn pieces_stand_one_behind_the_other(rt: HostRuntime) -> Result<(), Fail> {
    let mut text = Vec::new(rt.alloc());
    push_decimal(&mut text, 4_294_967_295)?;
    push_bytes(&mut text, b" ")?;
    push_decimal(&mut text, 0)?;
    push_bytes(&mut text, b" ")?;
    push_hex8(&mut text, 0x00ab_cd09)?;
    assert!(rt; text.as_slice() == b"4294967295 0 00abcd09".as_slice());
    assert!(rt; hex8(16).as_slice() == b"00000010".as_slice());
    Ok(())
}

/// A line of 1 to 3 bytes gives its length, an empty one nothing, and a longer one is bad.
#[derive(Drop)]
struct Lengths;

impl LineFormat for Lengths {
    ghost use Rattle.std.specs.Prelude.{Some, None, ◌==◌, length, nat_lt, if◌then◌else◌};

    type Item = usize;

    ghost step = { λ s n line. if nat_lt 3 (length line) then None
        else Some (if length line == 0 then None else Some (length line), s) };

    fn read(&mut self, _: Global, _: u64, line: &[u8]) -> Result<Option<usize>, LineFault> {
        match line.len() {
            0 => Ok(None),
            1..=3 => Ok(Some(line.len())),
            _ => Err(LineFault::Bad),
        }
    }
}

#[test]
fn the_first_bad_line_is_answered(rt: HostRuntime) -> Result<(), Fail> {
    let values = read_lines(rt.alloc(), b"ab\n\nabc", &mut Lengths)?;
    assert!(rt; values.as_slice() == [2, 3].as_slice());
    let fault = read_lines(rt.alloc(), b"ab\n\nabcd\nabcde\n", &mut Lengths).err();
    assert!(rt; fault == Some(TextFault::Line(3)));
    Ok(())
}

// Each text has 1,048,576 bytes, as many as a command reads of a script.
#[test]
fn long_texts_are_cut(rt: HostRuntime) -> Result<(), Fail> {
    let text = repeated(rt.alloc(), b"a ", 524_288)?;
    assert!(rt; words(rt.alloc(), &text)?.len() == 524_288);
    let text = repeated(rt.alloc(), b"enter 1\n", 131_072)?;
    assert!(rt; split_lines(rt.alloc(), &text)?.len() == 131_072);
    assert!(rt; read_script(rt.alloc(), &text)?.lines.len() == 131_072);
    Ok(())
}

#[test]
fn the_operations_of_a_script_are_read(rt: HostRuntime) -> Result<(), Fail> {
    let text = b"# start\nenter 1\n\n\tsetreg 5 0x9 # five\r\nresume 1 0\nhalt";
    let script = read_script(rt.alloc(), text)?;
    assert!(rt;
        matches!(
            script.lines.as_slice(),
            [
                ScriptLine::Do(Op::Enter { slot: 1 }),
                ScriptLine::Do(Op::SetReg { reg: 5, value: 9 }),
                ScriptLine::Do(Op::Resume { slot: 1, signal: 0 }),
                ScriptLine::Do(Op::Halt)
            ]
        )
    );
    Ok(())
}

#[test]
fn the_fields_of_a_run_file_are_read(rt: HostRuntime) -> Result<(), Fail> {
    let mut text = String::from_str(
        rt.alloc(),
        concat!(
            "machine 000102030405060708090a0b0c0d0e0f101112131415161718191a1b1c1d1e1f\n",
            "boot 7\nframes 16\nbudget 1000\nowner one.plain ",
            "1111111111111111111111111111111111111111111111111111111111111111 ",
            "22222222222222222222222222222222\n",
            "guest one.plain\nkernel script one.script\ninterrupt at 1 0x10",
        ),
    )?;
    for number in 17..10_001 {
        text.push_str(format!(in rt.alloc(); " {number}")?.as_str())?;
    }
    let run = read_run(rt.alloc(), text.as_bytes())?;
    assert!(rt; run.machine.0[31] == 31 && run.boot == 7 && run.frames == 16 && run.budget == 1000);
    let ([owner], [guest]) = (run.owners.as_slice(), run.guests.as_slice()) else {
        panic!(rt; "there is one owner and one guest");
    };
    assert!(rt; owner.plain.as_str() == "one.plain" && guest.sealed.as_str() == "one.plain");
    assert!(rt; owner.key.0[0] == 0x11 && owner.id.0[15] == 0x22 && guest.line == 6);
    assert!(rt; matches!(&run.kernel, KernelLine::Script(name) if name.as_str() == "one.script"));
    assert!(rt; run.kernel_line == 7 && run.schedule.pokes.is_empty());
    let Interrupts::At(times) = &run.schedule.interrupts else {
        panic!(rt; "no guest events are listed");
    };
    assert!(rt; times.len() == 9986);
    assert!(rt; times.as_slice().starts_with(&[1, 16, 17]));
    Ok(())
}

#[test]
fn commands_of_a_debugger_are_read(rt: HostRuntime) -> Result<(), Fail> {
    let text = repeated(rt.alloc(), b"last\n", 13_107)?;
    assert!(rt; read_commands(rt.alloc(), &text)?.as_slice().len() == 13_107);
    let commands = read_commands(rt.alloc(), b"step 3\n\nuntil trap\nram 4294967295 64\n")?;
    assert!(rt;
        matches!(
            commands.as_slice(),
            [
                Command::Step(3),
                Command::UntilTrap,
                Command::Ram {
                    address: 4_294_967_295,
                    count: 64
                }
            ]
        )
    );
    let fault = read_commands(rt.alloc(), b"last\nreg 34\n").err();
    assert!(rt; fault == Some(TextFault::Line(2)));
    Ok(())
}
