//! Journals, and what is judged of them.

use crate::inputs::{TWELVE, image_of, owner_of};
use journal_text::{BadLine, LineReader, print_journal, read_journal};
use std::test::Fail;
use trace_judge::{
    GuestEnd, GuestLine, GuestLineList, Judge, Report, Verdict, judge, print_report,
};
use xom_base::{
    Block, ByteList, Entry, ImageId, Key256, NoMemory, Received, Released, Rule, Short, Step,
    StepEnd, Stored, Writes,
};
use xom_journal::{Journal, cost};
use xom_owners::OwnerList;

const MINE: ImageId = ImageId([0xab; 16]);

const STRANGE: ImageId = ImageId([1; 16]);

const MACHINE: Key256 = Key256([7; 32]);

#[test]
fn entries_are_kept_and_paid_for(rt: HostRuntime) -> Result<(), Fail> {
    let mut journal = Journal::new(rt.alloc());
    assert!(rt; journal.is_empty());
    journal.reserve(1000)?;
    let seal = Entry::Seal {
        key: Short::new(&[1, 2, 3]),
        message: Short::new(&[4, 5]),
    };
    assert!(rt; cost(&seal) == 53);
    journal.push(&seal);
    assert!(rt; journal.len() == 1);
    assert!(rt; matches!(journal.get(0), Some(Entry::Seal { .. })));
    assert!(rt; journal.get(1).is_none());
    Ok(())
}

fn add(journal: &mut Journal, entry: Entry) -> Result<(), NoMemory> {
    journal.reserve(cost(&entry))?;
    journal.push(&entry);
    Ok(())
}

fn install(install: u64, slot: u8, id: ImageId) -> Entry {
    Entry::Install {
        install,
        slot,
        id,
        place: 65536,
        entry: 0,
        lines: 1,
    }
}

fn step(install: u64, pc: u32, writes: Writes, released: Released, end: StepEnd) -> Entry {
    let step = Step {
        pc,
        npc: pc.wrapping_add(4),
        writes,
        stored: Stored::Nothing,
        received: Received::Nothing,
        released,
        end,
    };
    Entry::Step { install, step }
}

/// The steps of the program that releases 12.
fn steps(install: u64) -> [Entry; 4] {
    let seven = Writes::One { reg: 8, value: 7 };
    let twelve = Writes::One { reg: 9, value: 12 };
    let out = Released::Cell { reg: 9, value: 12 };
    [
        step(install, 0, seven, Released::Nothing, StepEnd::Goes),
        step(install, 4, twelve, Released::Nothing, StepEnd::Goes),
        step(install, 8, Writes::Nothing, out, StepEnd::Goes),
        step(
            install,
            12,
            Writes::Nothing,
            Released::Nothing,
            StepEnd::Exit,
        ),
    ]
}

/// A guest that does what its program does, one of no owner, and one that leaves a step out.
fn add_guests(journal: &mut Journal) -> Result<(), NoMemory> {
    add(journal, install(1, 1, MINE))?;
    for entry in steps(1) {
        add(journal, entry)?;
    }
    add(journal, install(2, 2, STRANGE))?;
    add(journal, Entry::Kill { install: 2 })?;
    add(journal, install(3, 3, MINE))?;
    let [first, _second, third, _last] = steps(3);
    add(journal, first)?;
    add(journal, third)?;
    let rule = Rule::LineTag(7);
    add(journal, Entry::Stop { install: 3, rule })?;
    add(journal, Entry::Kill { install: 3 })
}

/// What is sealed and accepted under a key, at place 0 of RAM.
fn seal_and_accept(key: u8) -> (Entry, Entry) {
    let key = Short::new(&[key]);
    let message = Short::new(&[2, 3]);
    let accept = Entry::Accept {
        key,
        message,
        place: 0,
    };
    (Entry::Seal { key, message }, accept)
}

fn hash(text: u8) -> Entry {
    Entry::Hash {
        preimage: Block::new(&[text]),
        digest: [9; 32],
    }
}

/// Entries 13 to 19: what is accepted at 14 was sealed, what is accepted at 15 is sealed later.
fn add_seals(journal: &mut Journal) -> Result<(), NoMemory> {
    let (sealed, accepted) = seal_and_accept(1);
    let (late, forged) = seal_and_accept(2);
    for entry in [sealed, accepted, forged, late, hash(4), hash(4), hash(5)] {
        add(journal, entry)?;
    }
    Ok(())
}

#[test]
fn a_journal_is_judged(rt: HostRuntime) -> Result<(), Fail> {
    let mut owners = OwnerList::new(rt.alloc());
    owners.push(owner_of(image_of(rt.alloc(), &TWELVE)?, 5, 0xab))?;
    let mut journal = Journal::new(rt.alloc());
    add_guests(&mut journal)?;
    add_seals(&mut journal)?;
    let report = judge(rt.alloc(), &MACHINE, &owners, &journal)?;
    let text = print_report(rt.alloc(), &report)?;
    let told = concat!(
        "guest 1 slot 1 id abababababababababababababababab follows 4 steps ended\n",
        "guest 2 slot 2 id 01010101010101010101010101010101 no owner killed\n",
        "guest 3 slot 3 id abababababababababababababababab departs at step 2 stopped LineTag 7\n",
        "forged at entry 15\n",
        "collision of entries 17 and 19\n",
    );
    assert!(rt; text.as_slice() == told.as_bytes());
    Ok(())
}

#[test]
fn each_end_and_rule_is_printed(rt: HostRuntime) -> Result<(), Fail> {
    let mut guests = GuestLineList::new(rt.alloc());
    for end in [
        GuestEnd::Running,
        GuestEnd::Stopped(Rule::TreeNode(4)),
        GuestEnd::Stopped(Rule::RegisterTag(33)),
        GuestEnd::Stopped(Rule::RegisterMissing(1)),
    ] {
        guests.push(GuestLine {
            install: 10,
            slot: 16,
            id: MINE,
            verdict: Verdict::Follows(0),
            end,
        })?;
    }
    let report = Report {
        guests,
        forged: None,
        collision: None,
    };
    let told = concat!(
        "guest 10 slot 16 id abababababababababababababababab follows 0 steps open\n",
        "guest 10 slot 16 id abababababababababababababababab follows 0 steps stopped TreeNode 4\n",
        "guest 10 slot 16 id abababababababababababababababab follows 0 steps stopped RegisterTag 33\n",
        "guest 10 slot 16 id abababababababababababababababab follows 0 steps stopped RegisterMissing 1\n",
        "forged none\n",
        "collision none\n",
    );
    assert!(rt; print_report(rt.alloc(), &report)?.as_slice() == told.as_bytes());
    Ok(())
}

#[test]
fn texts_of_one_digest_collide(rt: HostRuntime) -> Result<(), Fail> {
    let owners = OwnerList::new(rt.alloc());
    let mut two = Journal::new(rt.alloc());
    add(&mut two, hash(4))?;
    add(&mut two, hash(5))?;
    let report = judge(rt.alloc(), &MACHINE, &owners, &two)?;
    assert!(rt; report.collision == Some((1, 2)));
    let mut one = Journal::new(rt.alloc());
    add(&mut one, hash(4))?;
    add(&mut one, hash(4))?;
    let report = judge(rt.alloc(), &MACHINE, &owners, &one)?;
    assert!(rt; report.collision.is_none());
    Ok(())
}

#[test]
fn a_later_seal_leaves_a_forgery(rt: HostRuntime) -> Result<(), Fail> {
    let owners = OwnerList::new(rt.alloc());
    let (late, forged) = seal_and_accept(1);
    let mut judge = Judge::new(rt.alloc(), &MACHINE, &owners)?;
    judge.feed(&forged)?;
    assert!(rt; judge.report()?.forged == Some(1));
    judge.feed(&late)?;
    assert!(rt; judge.report()?.forged == Some(1));
    Ok(())
}

#[test]
fn a_journal_off_the_rules_is_judged(rt: HostRuntime) -> Result<(), Fail> {
    let mut owners = OwnerList::new(rt.alloc());
    owners.push(owner_of(image_of(rt.alloc(), &TWELVE)?, 5, 0xab))?;
    let mut journal = Journal::new(rt.alloc());
    let [first, second, third, last] = steps(7);
    add(&mut journal, first)?;
    add(&mut journal, install(7, 1, MINE))?;
    add(&mut journal, second)?;
    add(&mut journal, install(7, 2, STRANGE))?;
    add(&mut journal, third)?;
    add(&mut journal, last)?;
    let report = judge(rt.alloc(), &MACHINE, &owners, &journal)?;
    let told = concat!(
        "guest 7 slot 1 id abababababababababababababababab follows 4 steps ended\n",
        "guest 7 slot 2 id 01010101010101010101010101010101 no owner ended\n",
        "forged none\n",
        "collision none\n",
    );
    assert!(rt; print_report(rt.alloc(), &report)?.as_slice() == told.as_bytes());
    Ok(())
}

#[test]
fn a_journal_is_printed_and_read(rt: HostRuntime) -> Result<(), Fail> {
    let mut journal = Journal::new(rt.alloc());
    add_guests(&mut journal)?;
    let text = print_journal(rt.alloc(), &journal)?;
    let read = read_journal(rt.alloc(), &text)?;
    assert!(rt; print_journal(rt.alloc(), &read)?.as_slice() == text.as_slice());
    let bad = ByteList::from_slice(rt.alloc(), b"out 1\nkill 1")?;
    assert!(rt; read_journal(rt.alloc(), &bad).is_err());
    let mut reader = LineReader::new();
    assert!(rt; matches!(reader.next(b"kill 1"), Err(BadLine(1))));
    assert!(rt; matches!(reader.next(b"out 1"), Err(BadLine(1))));
    Ok(())
}
