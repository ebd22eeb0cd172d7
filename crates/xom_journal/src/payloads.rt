ghost use Rattle.std.specs.Prelude.{◌≡◌, ◌≤◌, ◌+◌, ◌++◌, All, IfSome, length, vec_len, vec_capacity};
ghost use Rattle.xom_journal.specs.Records.{BlockExtends, HasTextAt, IsWithin, payload};

use crate::recent::RecentHashes;
use crate::record::{Record, part};
use xom_base::Entry;

/// Where the text of this digest stands in the block. It is added where no recent Hash has it.
#[tactic(auto, using(crate::proofs::RecordLaws::text_added))]
pub fn text_in(
    text: &[u8],
    digest: &[u8; 32],
    records: &[Record],
    bytes: &mut Vec<u8>,
    recent: &mut RecentHashes,
) -> u64
    requires within { All (IsWithin (length bytes.old.items)) records.now }
    requires room { vec_len bytes.old + length text.now ≤ vec_capacity bytes.old }
    ensures stands { HasTextAt result text.now bytes.new.items }
    ensures items { BlockExtends bytes.old.items bytes.new.items }
    ensures len { vec_len bytes.new ≤ vec_len bytes.old + length text.now }
    ensures capacity { vec_capacity bytes.old ≤ vec_capacity bytes.new }
{
    let known = text_of(records, recent.number(digest), bytes, text);
    match known {
        Some(at) => at,
        None => {
            let at = bytes.len() as u64;
            recent.set(digest, records.len() as u64);
            add(bytes, text);
            at
        }
    }
}

/// Where this text stands in the block, if it is that of the Hash of this number.
#[tactic(auto, using(crate::proofs::RecordLaws::text_found))]
fn text_of(records: &[Record], number: u64, bytes: &[u8], text: &[u8]) -> Option<u64>
    requires { All (IsWithin (length bytes.now)) records.now }
    ensures { IfSome result (λ at. HasTextAt at text.now bytes.now) }
{
    match records.get(number as usize) {
        Some(
            Record::Hash {
                at,
                preimage,
                digest: _digest,
            },
        ) if part(bytes, *at, usize::from(*preimage)) == text => Some(*at),
        _ => None,
    }
}

/// Adds the payload of an entry to the bytes, where there is room.
pub fn add_payload(bytes: &mut Vec<u8>, entry: &Entry)
    requires { vec_len bytes.old + length (payload entry.now) ≤ vec_capacity bytes.old }
    ensures items { bytes.new.items ≡ bytes.old.items ++ payload entry.now }
    ensures len { vec_len bytes.new ≡ vec_len bytes.old + length (payload entry.now) }
    ensures capacity { vec_capacity bytes.old ≤ vec_capacity bytes.new }
{
    match entry {
        Entry::Seal { key, message } => add_two(bytes, key.bytes(), message.bytes()),
        Entry::Accept {
            key,
            message,
            place: _place,
        } => add_two(bytes, key.bytes(), message.bytes()),
        Entry::Hash {
            preimage,
            digest: _digest,
        } => add(bytes, preimage.bytes()),
        Entry::Install { .. }
        | Entry::Step { .. }
        | Entry::Trap { .. }
        | Entry::Stop { .. }
        | Entry::Kill { .. }
        | Entry::Out { .. } => {}
    }
}

/// Adds two texts where there is room.
fn add_two(bytes: &mut Vec<u8>, first: &[u8], second: &[u8])
    requires { vec_len bytes.old + length (first.now ++ second.now) ≤ vec_capacity bytes.old }
    ensures items { bytes.new.items ≡ bytes.old.items ++ (first.now ++ second.now) }
    ensures len { vec_len bytes.new ≡ vec_len bytes.old + length (first.now ++ second.now) }
    ensures capacity { vec_capacity bytes.old ≤ vec_capacity bytes.new }
{
    add(bytes, first);
    add(bytes, second);
}

/// Adds a text where there is room.
fn add(bytes: &mut Vec<u8>, text: &[u8])
    requires { vec_len bytes.old + length text.now ≤ vec_capacity bytes.old }
    ensures items { bytes.new.items ≡ bytes.old.items ++ text.now }
    ensures len { vec_len bytes.new ≡ vec_len bytes.old + length text.now }
    ensures capacity { vec_capacity bytes.old ≤ vec_capacity bytes.new }
{
    match bytes.extend_from_slice(text) {
        Ok(()) => {}
        Err(_) => unreachable!(),
    }
}
