ghost use Rattle.std.specs.Prelude.{◌≡◌, ◌≤◌, ◌<◌, ◌+◌, IfSome, IsOk, OnOk, OnErr, length, option_and_then, option_map, slice_get, max, [], ◌∷◌, ◌++◌, ◌==◌, vec_len, vec_capacity};
ghost use Rattle.xom_base.specs.declared.entry.Entry.TheVariants as entry;
ghost use Rattle.xom_journal.specs.EntryParts.{byte_in, hash_in, stop_rule_in};
ghost use Rattle.xom_journal.specs.Log.{Log, cost as cost_of, log_with_entry};

use crate::payloads::{add_payload, text_in};
use crate::recent::RecentHashes;
use crate::record::{ENTRY_COST, HashedText, Record, cost, entry_of, hash_of, record_of};
use std::alloc::Global;
use std::marker::Model;
use xom_base::{Entry, NoMemory, Rule};

/// A list of entries that only grows. An entry takes 88 bytes of memory, and a seal, an accept or a
/// hash its payload besides. A hash whose text was hashed lately takes no payload.
#[derive(Drop)]
pub struct Journal {
    records: Vec<Record>,
    bytes: Vec<u8>,
    spare: u64,
    recent: RecentHashes,
}

impl Model for Journal {
    ghost use Rattle.std.specs.Prelude.{◌≤◌, ◌+◌, ◌*◌, All, length, map, vec_len, vec_capacity};
    ghost use Rattle.xom_journal.specs.Log.{Log};
    ghost use Rattle.xom_journal.specs.Records.{IsWithin, entry_at};

    ghost Value = { Log };

    ghost view = { λ j. record { entries = map (entry_at j.bytes.items) j.records.items; spare = j.spare } };

    // What is spare has places for records and for payload bytes.
    ghost invariant = { λ j. (j.spare + 48 * vec_len j.records ≤ 48 * vec_capacity j.records) × (j.spare + vec_len j.bytes ≤ vec_capacity j.bytes) × All (IsWithin (length j.bytes.items)) j.records.items };
}

impl Journal {
    /// The empty journal, with nothing spare. It takes no memory.
    pub fn new(alloc: Global) -> Journal
        ensures { result ≡ record { entries = []; spare = 0 } }
    {
        Journal {
            records: Vec::new(alloc),
            bytes: Vec::new(alloc),
            spare: 0,
            recent: RecentHashes::new(),
        }
    }

    /// Makes at least so many bytes spare, or leaves all as before. Where the room isn't there yet, it
    /// asks for that of `bytes / 48 + 1` records and of `bytes` payload bytes, behind what is used.
    /// These two blocks grow as a `Vec` does, so that over a whole run an entry is moved a constant
    /// number of times; what isn't written yet is asked for and not touched.
    pub fn reserve(&mut self, bytes: u64) -> Result<(), NoMemory>
        ensures entries { self.new.entries ≡ self.old.entries }
        ensures ok { OnOk result (bytes ≤ self.new.spare) }
        // It makes so much spare, and no multiple.
        ensures no_more { OnOk result (self.new.spare ≤ max self.old.spare bytes) }
        ensures grows { self.old.spare ≤ self.new.spare }
        ensures err { OnErr result (self.new.spare ≡ self.old.spare) }
        ensures enough { bytes ≤ self.old.spare → IsOk result }
    {
        if bytes <= self.spare {
            return Ok(());
        }
        let places = (bytes / ENTRY_COST + 1) as usize;
        self.records.reserve(places)?;
        self.bytes.reserve(bytes as usize)?;
        self.spare = bytes;
        Ok(())
    }

    /// Adds an entry at the end. It takes no memory, and time linear in the payload.
    pub fn push(&mut self, entry: &Entry)
        requires { cost_of entry.now ≤ self.old.spare }
        ensures { self.new ≡ log_with_entry self.old entry.now }
    {
        match entry {
            Entry::Hash { preimage, digest } => {
                let _size = preimage.len();
                self.push_hash(preimage.bytes(), digest);
            }
            _ => self.push_new(entry),
        }
    }

    /// Adds a Hash of this text, of at most 260 bytes, at the end. It takes no memory, and time
    /// linear in the text.
    pub fn push_hash(&mut self, text: &[u8], digest: &[u8; 32])
        requires size { length text.now ≤ 260 }
        requires room { 80 + length text.now ≤ self.old.spare }
        ensures { self.new ≡ log_with_entry self.old (entry.Hash text.now digest.now) }
    {
        let records = self.records.as_slice();
        let at = text_in(text, digest, records, &mut self.bytes, &mut self.recent);
        let record = Record::Hash {
            at,
            preimage: text.len() as u16,
            digest: *digest,
        };
        add_record(&mut self.records, record);
        self.spare -= ENTRY_COST + 32 + text.len() as u64;
    }

    /// Adds an entry at the end, and its payload at the end of the block.
    fn push_new(&mut self, entry: &Entry)
        requires { cost_of entry.now ≤ self.old.spare }
        ensures { self.new ≡ log_with_entry self.old entry.now }
    {
        let at = self.bytes.len() as u64;
        add_payload(&mut self.bytes, entry);
        add_record(&mut self.records, record_of(entry, at));
        self.spare -= cost(entry);
    }

    /// How many entries there are.
    pub fn len(&self) -> u64
        ensures { result ≡ length self.now.entries }
    {
        self.records.len() as u64
    }

    /// Whether there is none.
    pub fn is_empty(&self) -> bool
        ensures { result ≡ (length self.now.entries == 0) }
    {
        self.len() == 0
    }

    /// The entry at a place, counted from 0, or none past the end. It copies the payload.
    #[tactic(auto, using(crate::proofs::RecordLaws::get_entries))]
    pub fn get(&self, i: u64) -> Option<Entry>
        ensures { result ≡ slice_get self.now.entries i }
    {
        let record = self.records.get(i as usize)?;
        Some(entry_of(record, &self.bytes))
    }

    /// The byte that the entry at a place wrote to the console, if it is an Out.
    #[tactic(auto, using(crate::proofs::RecordLaws::get_entries))]
    pub fn byte_at(&self, i: u64) -> Option<u8>
        ensures { result ≡ option_and_then byte_in (slice_get self.now.entries i) }
    {
        match self.records.get(i as usize) {
            Some(Record::Out { byte }) => Some(*byte),
            _ => None,
        }
    }

    /// The rule by which the entry at a place stopped a guest, if it is a Stop.
    #[tactic(auto, using(crate::proofs::RecordLaws::get_entries))]
    pub fn stop_rule_at(&self, i: u64) -> Option<Rule>
        ensures { result ≡ option_and_then stop_rule_in (slice_get self.now.entries i) }
    {
        match self.records.get(i as usize) {
            Some(
                Record::Stop {
                    install: _install,
                    rule,
                },
            ) => Some(*rule),
            _ => None,
        }
    }

    /// The text of the entry at a place and its digest, if it is a Hash. It copies nothing.
    #[tactic(auto, using(crate::proofs::RecordLaws::get_entries))]
    pub fn hash_at(&self, i: u64) -> Option<HashedText<'_>>
        ensures value { option_map (λ hash. (hash.text.now, hash.digest.now)) result ≡ option_and_then hash_in (slice_get self.now.entries i) }
        ensures few { IfSome result (λ hash. length hash.text.now ≤ 260) }
    {
        hash_of(self.records.get(i as usize)?, &self.bytes)
    }

    /// How many bytes are spare.
    pub fn spare(&self) -> u64
        ensures { result ≡ self.now.spare }
    {
        self.spare
    }
}

/// Adds a record where there is room.
fn add_record(records: &mut Vec<Record>, added: Record)
    requires { vec_len records.old < vec_capacity records.old }
    ensures items { records.new.items ≡ records.old.items ++ added ∷ [] }
    ensures len { vec_len records.new ≡ vec_len records.old + 1 }
    ensures capacity { vec_capacity records.old ≤ vec_capacity records.new }
{
    match records.push(added) {
        Ok(()) => {}
        Err(_) => unreachable!(),
    }
}
