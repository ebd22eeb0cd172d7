//! Programs on the plain machine, and the text of their steps.

use crate::inputs::{PRIVATE, TWELVE, image_of, repeated};
use mips_plain::{Given, Memory, Plain, PlainCell, PlainStep};
use plain_run::{ReceivedList, read_received, run_alone};
use std::process::Abort;
use std::test::Fail;
use step_text::push_step;
use xom_base::{
    ByteList, OwnFault, PlainImage, Received, Released, Step, StepEnd, Stored, Writes, step_eq,
};

/// A step at this address that changes nothing.
fn quiet(pc: u32) -> Step {
    Step {
        pc,
        npc: pc.wrapping_add(4),
        writes: Writes::Nothing,
        stored: Stored::Nothing,
        received: Received::Nothing,
        released: Released::Nothing,
        end: StepEnd::Goes,
    }
}

/// A step at this address that writes a cell.
fn writing(pc: u32, reg: u8, value: u32) -> Step {
    Step {
        writes: Writes::One { reg, value },
        ..quiet(pc)
    }
}

fn assert_did(rt: &impl Abort, answer: PlainStep, step: &Step) {
    match answer {
        PlainStep::Did(done) => assert!(rt; step_eq(&done, step), "at {}", step.pc),
        _ => panic!(rt; "no step at {}", step.pc),
    }
}

#[test]
fn twelve_is_released_and_then_the_program_is_over(rt: HostRuntime) -> Result<(), Fail> {
    let mut plain = Plain::new(rt.alloc(), &image_of(rt.alloc(), &TWELVE)?)?;
    let out = Step {
        released: Released::Cell { reg: 9, value: 12 },
        ..quiet(8)
    };
    let last = Step {
        end: StepEnd::Exit,
        ..quiet(12)
    };
    for step in [writing(0, 8, 7), writing(4, 9, 12), out, last] {
        assert_did(&rt, plain.step(Given::Nothing), &step);
    }
    assert!(rt; matches!(plain.step(Given::Nothing), PlainStep::Over));
    assert!(rt; plain.is_over());
    assert!(rt; plain.cell(8) == PlainCell::Own(7));
    assert!(rt; plain.cell(9) == PlainCell::Lent);
    Ok(())
}

#[test]
#[tactic(auto, using(mips_plain::proofs::Sizes::private_size_is))]
fn what_is_given_is_received_or_unfit(rt: HostRuntime) -> Result<(), Fail> {
    // xmvfn $8, $9; sw $8, 64($0); addu $8, $9, $0, which reads a register of the outside
    let words = [0x4920_4002, 0xac08_0040, 0x0120_4021];
    let mut plain = Plain::new(rt.alloc(), &image_of(rt.alloc(), &words)?)?;
    assert!(rt; matches!(plain.step(Given::Nothing), PlainStep::Unfit));
    let value = 0x1122_3344;
    let received = Step {
        received: Received::Cell(value),
        ..writing(0, 8, value)
    };
    assert_did(&rt, plain.step(Given::Value(value)), &received);
    assert!(rt; matches!(plain.step(Given::Value(1)), PlainStep::Unfit));
    let stored = Step {
        stored: Stored::Bytes {
            address: 64,
            count: 4,
            value,
        },
        ..quiet(4)
    };
    assert_did(&rt, plain.step(Given::Nothing), &stored);
    assert!(rt; plain.byte(64) == 0x11 && plain.byte(67) == 0x44);
    assert!(rt; plain.pair() == (8, 12));
    assert!(rt; matches!(plain.step(Given::Signal(1)), PlainStep::Unfit));
    let fault = plain.step(Given::Value(1));
    assert!(rt; matches!(fault, PlainStep::Fault(OwnFault::Foreign)));
    Ok(())
}

#[test]
#[tactic(auto, using(mips_plain::proofs::Sizes::private_size_is))]
fn the_largest_image_is_loaded(rt: HostRuntime) -> Result<(), Fail> {
    let image = PlainImage {
        entry: 0xffffc,
        bytes: ByteList::from_vec(vec![in rt.alloc(); 7; PRIVATE]?),
    };
    let mut memory = Memory::new(rt.alloc())?;
    assert!(rt; memory.byte(0xfffff) == 0);
    memory.load(&image);
    assert!(rt; memory.word(0xffffc) == 0x0707_0707);
    assert!(rt; Plain::new(rt.alloc(), &image)?.pair() == (0xffffc, 0x10_0000));
    Ok(())
}

#[test]
fn a_long_run_is_printed_whole(rt: HostRuntime) -> Result<(), Fail> {
    // again: beq $0, $0, again; addiu $8, $0, 1
    let image = image_of(rt.alloc(), &[0x1000_ffff, 0x2408_0001])?;
    let text = run_alone(rt.alloc(), &image, 1_048_576, &[])?;
    assert!(rt; text.len() == 524_288 * (31 + 41) + 6);
    Ok(())
}

#[test]
fn a_long_received_file_is_read(rt: HostRuntime) -> Result<(), Fail> {
    let text = repeated(rt.alloc(), b"0000000f\n", 116_508)?;
    let values = read_received(rt.alloc(), &text)?;
    assert!(rt; values.as_slice().len() == 116_508);
    assert!(rt; ReceivedList::new(rt.alloc()).as_slice().len() == 0);
    Ok(())
}

/// The step at 8 that passes a value in and another one out.
fn passing(received: Received, released: Released) -> Step {
    Step {
        received,
        released,
        ..quiet(8)
    }
}

/// The step at 8 that stores the low bytes of a value, so many, and ends so.
fn storing(count: u8, end: StepEnd) -> Step {
    let value = 0xdead_beef;
    let stored = Stored::Bytes {
        address: 0x4a,
        count,
        value,
    };
    Step {
        stored,
        end,
        ..quiet(8)
    }
}

#[test]
fn steps_have_their_lines(rt: HostRuntime) -> Result<(), Fail> {
    let pair = Writes::Pair {
        hi: u32::MAX,
        lo: 1,
    };
    let both = Step {
        writes: pair,
        ..quiet(8)
    };
    let (address, value) = (0x1_0000, 0x2a);
    let loaded = Received::Null { address, value };
    let stored = Released::Null { address, value };
    let cell = Released::Cell { reg: 9, value: 12 };
    for (step, text) in [
        (writing(8, 33, 0xc0de), "r33=0000c0de - - - goes"),
        (both, "hl=ffffffff:00000001 - - - goes"),
        (storing(1, StepEnd::Goes), "- 0000004a+1=ef - - goes"),
        (storing(2, StepEnd::Exit), "- 0000004a+2=beef - - exit"),
        (
            storing(3, StepEnd::Call(0)),
            "- 0000004a+3=adbeef - - call=0",
        ),
        (
            storing(4, StepEnd::Call(1_048_575)),
            "- 0000004a+4=deadbeef - - call=1048575",
        ),
        (
            passing(Received::Cell(9), cell),
            "- - cell=00000009 r9=0000000c goes",
        ),
        (
            passing(loaded, stored),
            "- - null=00010000:0000002a null=00010000:0000002a goes",
        ),
        (
            passing(Received::Signal(63), Released::Nothing),
            "- - signal=63 - goes",
        ),
    ] {
        let mut line = Vec::from_slice(rt.alloc(), b"step 1 ")?;
        push_step(&mut line, &step)?;
        let wanted = format!(in rt.alloc(); "step 1 00000008 0000000c {text}")?;
        assert_eq!(rt; line.as_slice(), wanted.as_bytes());
    }
    Ok(())
}
