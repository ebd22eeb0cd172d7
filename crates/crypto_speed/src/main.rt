//! How fast blocks are encrypted, tags are taken and texts are hashed, and how fast the machine runs
//! beside that. `blocks N`, `tags N` and `compressions N` make so many, each of the one before it; `trees N`
//! hashes the texts of so many trees of versions, and `misses N` does the cryptography of so many lines
//! that are opened and judged. They print what comes out. `installs N` makes so many installs, each of which
//! builds a tree; `hits-tree N` and `hits-chip N` make so many events with a guest in the cache, whose versions
//! lie in a tree or on chip. They print how many entries were recorded. The benchmarks of sealing and of
//! the tree time them.
#![tactic(auto)]

mod cryptography;
mod machines;

use cryptography::{digest_of_blocks, last_block, last_miss, last_tag, last_tree};
use machines::{Task, entries};
use replay_tree::TreeVersions;
use std::process::ExitCode;
use std::{env, io};
use text_lines::number;
use xom_base::NoMemory;
use xom_versions::ChipVersions;

fn main(rt: HostRuntime) -> io::Result<ExitCode> {
    let mut words = Vec::new(rt.alloc());
    for word in env::args(&rt)?.skip(1) {
        words.push(word)?;
    }
    let [what, count] = words.as_slice() else {
        return usage(&rt);
    };
    let Some(count) = number(count.as_bytes()) else {
        return usage(&rt);
    };
    let alloc = rt.alloc();
    match what.as_str() {
        "blocks" => show(&rt, last_block(count).as_slice()),
        "tags" => show(&rt, last_tag(count).as_slice()),
        "compressions" => show(&rt, digest_of_blocks(count).as_slice()),
        "trees" => show(&rt, last_tree(count).as_slice()),
        "misses" => show(&rt, last_miss(count).as_slice()),
        "installs" => tell(&rt, entries::<TreeVersions>(alloc, Task::Installs, count)),
        "hits-tree" => tell(&rt, entries::<TreeVersions>(alloc, Task::Hits, count)),
        "hits-chip" => tell(&rt, entries::<ChipVersions>(alloc, Task::Hits, count)),
        _ => usage(&rt),
    }
}

fn usage(rt: &HostRuntime) -> io::Result<ExitCode> {
    println!(rt; "crypto_speed: words are a kind of work and how much of it, as `blocks 1`")?;
    Ok(ExitCode::from(1))
}

fn show(rt: &HostRuntime, bytes: &[u8]) -> io::Result<ExitCode> {
    let text = hex::encode(rt.alloc(), bytes)?;
    println!(rt; "{text}")?;
    Ok(ExitCode::from(0))
}

fn tell(rt: &HostRuntime, count: Result<u64, NoMemory>) -> io::Result<ExitCode> {
    match count {
        Ok(count) => {
            println!(rt; "{count}")?;
            Ok(ExitCode::from(0))
        }
        Err(_) => {
            println!(rt; "out of memory")?;
            Ok(ExitCode::from(1))
        }
    }
}
