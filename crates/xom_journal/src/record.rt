ghost use Rattle.std.specs.Prelude.{◌≡◌, ◌≤◌, ◌<◌, ◌+◌, ◌^◌, IfSome, length, option_map};
ghost use Rattle.xom_journal.specs.EntryParts.{hash_in};
ghost use Rattle.xom_journal.specs.Log.{cost as cost_of};
ghost use Rattle.xom_journal.specs.Records.{IsWithin, entry_at, part_of_block as part_of, payload, record_at};

use xom_base::{Block, Cause, Entry, ImageId, Rule, Short, Step};

/// What each entry costs beside its payload bytes, in bytes of spare.
pub const ENTRY_COST: u64 = 48;

/// An entry in fixed size. Its payload, if it has one, stands in the block of bytes from `at` on, the
/// key before the message; `key`, `message` and `preimage` count bytes.
#[derive(Clone, Copy)]
pub enum Record {
    Install {
        install: u64,
        slot: u8,
        id: ImageId,
        place: u32,
        entry: u32,
        lines: u32,
    },
    Step {
        install: u64,
        step: Step,
    },
    Trap {
        install: u64,
        cause: Cause,
    },
    Seal {
        at: u64,
        key: u8,
        message: u8,
    },
    Accept {
        at: u64,
        key: u8,
        message: u8,
        place: u32,
    },
    Hash {
        at: u64,
        preimage: u16,
        digest: [u8; 32],
    },
    Stop {
        install: u64,
        rule: Rule,
    },
    Kill {
        install: u64,
    },
    Out {
        byte: u8,
    },
}

/// What an entry costs of spare, in bytes: its payload and 48 more.
pub fn cost(entry: &Entry) -> u64
    ensures { result ≡ cost_of entry.now }
{
    match entry {
        Entry::Seal { key, message } => ENTRY_COST + key.len() as u64 + message.len() as u64,
        Entry::Accept { key, message, .. } => ENTRY_COST + key.len() as u64 + message.len() as u64,
        Entry::Hash { preimage, digest } => ENTRY_COST
            + preimage.len() as u64
            + digest.len() as u64,
        Entry::Install { .. }
        | Entry::Step { .. }
        | Entry::Trap { .. }
        | Entry::Stop { .. }
        | Entry::Kill { .. }
        | Entry::Out { .. } => ENTRY_COST,
    }
}

/// So many bytes of the block, from a place on.
pub fn part(bytes: &[u8], at: u64, count: usize) -> &[u8]
    requires { at + count ≤ length bytes.now }
    ensures { result.now ≡ part_of at count bytes.now }
{
    let start = at as usize;
    &bytes[start..start + count]
}

/// A text that was hashed, where it stands in the journal, and its digest.
#[derive(Clone, Copy)]
pub struct HashedText<'a> {
    /// The text, of at most 260 bytes.
    pub text: &'a [u8],
    /// Its digest.
    pub digest: &'a [u8; 32],
}

/// The text and the digest of a record, if it is of a Hash.
pub fn hash_of<'a>(source: &'a Record, bytes: &'a [u8]) -> Option<HashedText<'a>>
    requires { IsWithin (length bytes.now) source.now }
    ensures value { option_map (λ hash. (hash.text.now, hash.digest.now)) result ≡ hash_in (entry_at bytes.now source.now) }
    ensures few { IfSome result (λ hash. length hash.text.now ≤ 260) }
{
    match source {
        Record::Hash {
            at,
            preimage,
            digest,
        } => Some(HashedText {
            text: part(bytes, *at, usize::from(*preimage)),
            digest,
        }),
        _ => None,
    }
}

/// The entry of a record.
pub fn entry_of(source: &Record, bytes: &[u8]) -> Entry
    requires { IsWithin (length bytes.now) source.now }
    ensures { result ≡ entry_at bytes.now source.now }
{
    match *source {
        Record::Install {
            install,
            slot,
            id,
            place,
            entry,
            lines,
        } => Entry::Install {
            install,
            slot,
            id,
            place,
            entry,
            lines,
        },
        Record::Step { install, step } => Entry::Step { install, step },
        Record::Trap { install, cause } => Entry::Trap { install, cause },
        Record::Seal { at, key, message } => Entry::Seal {
            key: Short::new(part(bytes, at, usize::from(key))),
            message: Short::new(part(bytes, at + u64::from(key), usize::from(message))),
        },
        Record::Accept {
            at,
            key,
            message,
            place,
        } => Entry::Accept {
            key: Short::new(part(bytes, at, usize::from(key))),
            message: Short::new(part(bytes, at + u64::from(key), usize::from(message))),
            place,
        },
        Record::Hash {
            at,
            preimage,
            digest,
        } => Entry::Hash {
            preimage: Block::new(part(bytes, at, usize::from(preimage))),
            digest,
        },
        Record::Stop { install, rule } => Entry::Stop { install, rule },
        Record::Kill { install } => Entry::Kill { install },
        Record::Out { byte } => Entry::Out { byte },
    }
}

/// The record of an entry, whose payload stands from `at` on.
pub fn record_of(entry: &Entry, at: u64) -> Record
    requires { at < 2 ^ 63 }
    ensures value { result ≡ record_at at entry.now }
    ensures within { IsWithin (at + length (payload entry.now)) result }
{
    match *entry {
        Entry::Install {
            install,
            slot,
            id,
            place,
            entry,
            lines,
        } => Record::Install {
            install,
            slot,
            id,
            place,
            entry,
            lines,
        },
        Entry::Step { install, step } => Record::Step { install, step },
        Entry::Trap { install, cause } => Record::Trap { install, cause },
        Entry::Seal { key, message } => Record::Seal {
            at,
            key: key.len() as u8,
            message: message.len() as u8,
        },
        Entry::Accept {
            key,
            message,
            place,
        } => Record::Accept {
            at,
            key: key.len() as u8,
            message: message.len() as u8,
            place,
        },
        Entry::Hash { preimage, digest } => Record::Hash {
            at,
            preimage: preimage.len() as u16,
            digest,
        },
        Entry::Stop { install, rule } => Record::Stop { install, rule },
        Entry::Kill { install } => Record::Kill { install },
        Entry::Out { byte } => Record::Out { byte },
    }
}
