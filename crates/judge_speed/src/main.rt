//! How fast a journal is judged: `mixed N` feeds a judge so many entries, in turn a seal, an accept of it, a
//! hash and three steps that follow; `steps N` steps alone; `owned N` accepts of lines that the owner
//! sealed; `installs N` so many installs and kills of a guest of one line. `sealings N` seals so many lines and
//! judges none: the cryptography of `owned`. `entries N` makes mixed entries and judges none, and `digests N`
//! takes the digests of the hashes among them: the cryptography of `mixed`. `journals N` makes a journal of
//! mixed entries, `judged N` judges it in one call, `texts N` prints it, and `lines N` reads that text again.
//! `strays N` judges steps and installs of one number in turn, and `skips N` those of the numbers from 2 on.
//! The benchmark of judging times them.
//!
//! What the judge computes itself: as it is made, each owner's keys and envelope; for an accept under an
//! owner's image key that names a line of the image, the sealing of that line (two blocks of AES and one HMAC);
//! for any other entry no cryptography. In `mixed` no accept is under an owner's key, so all cryptography
//! there is that of making the entries.
#![tactic(auto)]

use journal_text::{print_journal, read_journal};
use keyed_mac::digest;
use std::alloc::Global;
use std::process::ExitCode;
use std::{env, io};
use text_lines::number;
use trace_judge::{Judge, Report, judge};
use xom_base::{
    Block, ByteList, Entry, ImageId, Key256, NoMemory, PlainImage, Received, Released, Short, Step,
    StepEnd, Stored, Writes,
};
use xom_journal::{Journal, cost};
use xom_owners::{Owner, OwnerList};
use xom_seal::{LineName, LineSealer, image_keys};

const MACHINE: Key256 = Key256([1; 32]);

const IMAGE: Key256 = Key256([2; 32]);

const ID: ImageId = ImageId([3; 16]);

/// `addiu $8, $0, 7`, `j 0` and a `nop` in its delay slot.
const LOOP: [u8; 12] = [0x24, 8, 0, 7, 8, 0, 0, 0, 0, 0, 0, 0];

/// What is timed.
#[derive(Clone, Copy)]
enum Work {
    Mixed,
    Steps,
    Owned,
    Installs,
    Sealings,
    Entries,
    Digests,
    Journals,
    Judged,
    Texts,
    Lines,
    Strays,
    Skips,
}

fn main(rt: HostRuntime) -> io::Result<ExitCode> {
    let mut words = Vec::new(rt.alloc());
    for word in env::args(&rt)?.skip(1) {
        words.push(word)?;
    }
    let [what, count] = words.as_slice() else {
        return usage(&rt);
    };
    let (Some(work), Some(count)) = (work_of(what.as_str()), number(count.as_bytes())) else {
        return usage(&rt);
    };
    match done(rt.alloc(), work, count) {
        Ok(number) => println!(rt; "{number}")?,
        Err(_) => println!(rt; "out of memory or refused")?,
    }
    Ok(ExitCode::from(0))
}

fn usage(rt: &HostRuntime) -> io::Result<ExitCode> {
    println!(rt; "judge_speed: words are a kind of work and how much of it, as `mixed 600`")?;
    Ok(ExitCode::from(1))
}

fn work_of(word: &str) -> Option<Work> {
    match word {
        "mixed" => Some(Work::Mixed),
        "steps" => Some(Work::Steps),
        "owned" => Some(Work::Owned),
        "installs" => Some(Work::Installs),
        "sealings" => Some(Work::Sealings),
        "entries" => Some(Work::Entries),
        "digests" => Some(Work::Digests),
        "journals" => Some(Work::Journals),
        "judged" => Some(Work::Judged),
        "texts" => Some(Work::Texts),
        "lines" => Some(Work::Lines),
        "strays" => Some(Work::Strays),
        "skips" => Some(Work::Skips),
        _ => None,
    }
}

/// Does the work, and answers a number that only all of it gives.
fn done(alloc: Global, work: Work, count: u64) -> Result<u64, NoMemory> {
    match work {
        Work::Sealings => Ok(sealed(count)),
        Work::Entries => Ok(made(count)),
        Work::Digests => Ok(hashed(count)),
        Work::Journals => Ok(journal(alloc, Work::Mixed, count)?.len()),
        Work::Judged => judged(alloc, Work::Mixed, count),
        Work::Strays | Work::Skips => judged(alloc, work, count),
        Work::Texts => Ok(text(alloc, count)?.len() as u64),
        Work::Lines => entries_read(alloc, &text(alloc, count)?),
        _ => lines_of_report(alloc, work, count),
    }
}

/// The journal of so many entries.
fn journal(alloc: Global, work: Work, count: u64) -> Result<Journal, NoMemory> {
    let mut journal = Journal::new(alloc);
    let accept = owned();
    for i in 0..count {
        let entry = entry(work, i, &accept);
        journal.reserve(cost(&entry))?;
        journal.push(&entry);
    }
    Ok(journal)
}

/// Judges a journal in one call; how many lines the report has.
fn judged(alloc: Global, work: Work, count: u64) -> Result<u64, NoMemory> {
    let mut owners = OwnerList::new(alloc);
    owners.push(owner(alloc)?)?;
    let report = judge(alloc, &MACHINE, &owners, &journal(alloc, work, count)?)?;
    lines(&report)
}

/// The text of a journal.
fn text(alloc: Global, count: u64) -> Result<ByteList, NoMemory> {
    print_journal(alloc, &journal(alloc, Work::Mixed, count)?)
}

/// How many entries a text gives.
fn entries_read(alloc: Global, text: &ByteList) -> Result<u64, NoMemory> {
    match read_journal(alloc, text) {
        Ok(journal) => Ok(journal.len()),
        Err(_) => Err(NoMemory),
    }
}

/// How many lines the report has of entries that are fed one by one, where it finds nothing.
fn lines_of_report(alloc: Global, work: Work, count: u64) -> Result<u64, NoMemory> {
    let mut owners = OwnerList::new(alloc);
    owners.push(owner(alloc)?)?;
    let accept = owned();
    let mut judge = Judge::new(alloc, &MACHINE, &owners)?;
    for i in 0..count {
        judge.feed(&entry(work, i, &accept))?;
    }
    lines(&judge.report()?)
}

/// The owner of the loop.
fn owner(alloc: Global) -> Result<Owner, NoMemory> {
    Ok(Owner {
        plain: PlainImage {
            entry: 0,
            bytes: ByteList::from_vec(Vec::from_slice(alloc, &LOOP)?),
        },
        key: IMAGE,
        id: ID,
    })
}

fn lines(report: &Report) -> Result<u64, NoMemory> {
    match (report.forged, report.collision) {
        (None, None) => Ok(report.guests.len() as u64),
        _ => Err(NoMemory),
    }
}

/// So many sealings of the loop's line; the first byte of the last tag.
fn sealed(count: u64) -> u64 {
    let sealer = LineSealer::new(&image_keys(&IMAGE, &ID));
    let mut last = 0;
    for _ in 0..count {
        let sealing = sealer.seal(&LineName::Image { id: ID, line: 0 }, &line());
        last = u64::from(sealing.sealed.tag[0]);
    }
    last
}

/// So many mixed entries, made and let go; what they cost of a journal.
fn made(count: u64) -> u64 {
    let accept = owned();
    let mut sum: u64 = 0;
    for i in 0..count {
        sum = sum.wrapping_add(cost(&entry(Work::Mixed, i, &accept)));
    }
    sum
}

/// The digests of the hashes among so many mixed entries; the sum of their first bytes.
fn hashed(count: u64) -> u64 {
    let mut sum: u64 = 0;
    for i in 1..count {
        if is_hash(i - 1) {
            sum = sum.wrapping_add(u64::from(digest(&round(i - 1))[0]));
        }
    }
    sum
}

/// The loop's line.
fn line() -> [u8; 32] {
    let mut line = [0; 32];
    line[..12].copy_from_slice(&LOOP);
    line
}

/// The entry at a place, counted from 0.
fn entry(work: Work, i: u64, accept: &Entry) -> Entry {
    match work {
        Work::Installs if i % 2 == 0 => install(i / 2 + 1),
        Work::Installs => Entry::Kill { install: i / 2 + 1 },
        Work::Strays if i % 2 == 0 => step(i / 2),
        Work::Strays => install(1),
        Work::Skips if i % 2 == 0 => step_of(i / 2 + 2, 0),
        Work::Skips => install(i / 2 + 2),
        _ if i == 0 => install(1),
        Work::Steps => step(i - 1),
        Work::Owned => *accept,
        _ => mixed(i - 1),
    }
}

fn install(install: u64) -> Entry {
    Entry::Install {
        install,
        slot: 1,
        id: ID,
        place: 0,
        entry: 0,
        lines: 1,
    }
}

/// The step of install 1 at a place of the loop's run.
fn step(i: u64) -> Entry {
    step_of(1, i)
}

/// The step of an install at a place of the loop's run.
fn step_of(install: u64, i: u64) -> Entry {
    let (pc, npc, writes) = match i % 3 {
        0 => (0, 4, Writes::One { reg: 8, value: 7 }),
        1 => (4, 8, Writes::Nothing),
        _ => (8, 0, Writes::Nothing),
    };
    let step = Step {
        pc,
        npc,
        writes,
        stored: Stored::Nothing,
        received: Received::Nothing,
        released: Released::Nothing,
        end: StepEnd::Goes,
    };
    Entry::Step { install, step }
}

/// An accept of the loop's line.
fn owned() -> Entry {
    let sealer = LineSealer::new(&image_keys(&IMAGE, &ID));
    let sealing = sealer.seal(&LineName::Image { id: ID, line: 0 }, &line());
    Entry::Accept {
        key: Short::new(&IMAGE.0),
        message: sealing.message,
        place: 0,
    }
}

/// In turn a seal, an accept of it, a hash and three steps.
fn mixed(i: u64) -> Entry {
    match i % 6 {
        0 => Entry::Seal {
            key: Short::new(&[9; 32]),
            message: message(&round(i)),
        },
        1 => Entry::Accept {
            key: Short::new(&[9; 32]),
            message: message(&round(i)),
            place: 0,
        },
        2 => hash(&round(i)),
        other => step(other),
    }
}

/// Whether the mixed entry at a place is a hash.
fn is_hash(i: u64) -> bool {
    i % 6 == 2
}

/// Eight bytes that tell the round of the mixed entry at a place.
fn round(i: u64) -> [u8; 8] {
    (i / 6).wrapping_mul(0x9e37_79b9_7f4a_7c15).to_be_bytes()
}

/// A message of 61 bytes that tells its round.
fn message(round: &[u8; 8]) -> Short {
    let mut text = [2; 61];
    text[9..17].copy_from_slice(round);
    Short::new(&text)
}

/// A hash of a text that tells its round.
fn hash(round: &[u8; 8]) -> Entry {
    Entry::Hash {
        preimage: Block::new(round),
        digest: digest(round),
    }
}
