ghost use Rattle.std.specs.Prelude.{◌≡◌, ◌≤◌, ◌<◌, ◌^◌, List, length, map, option_map};
ghost use Rattle.text_lines.specs.Hex.{hex_within};
ghost use Rattle.text_lines.specs.Numbers.{decimal_below_of, number_below_of};
ghost use Rattle.journal_text.specs.JournalLines.{accept_entry_of, cause_of, hash_entry_of, install_entry_of, installed_of, journal_step, kill_entry_of, last_behind, named_cause_of, named_entry_of, named_rule_of, next_install_of, out_entry_of, payload_of, row_of_entry, rule_of, seal_entry_of, step_entry_of, stop_entry_of, trap_entry_of};

use keyed_mac::digest;
use step_text::{fault_in, step_in};
use text_lines::{
    count_below, decimal, decimal_below, few_words, hex_into, hex16, hex32, number_below, number32,
};
use xom_base::{Cause, Entry, ImageId, Payload, Rule};

/// What a line says, where the last install before it had this number: no entry where it has no words, and
/// the number of the last install behind it. None where it is off the grammar. It takes no memory.
pub fn line_in(last: u64, line: &[u8]) -> Option<(Option<Entry>, u64)>
    ensures { result ≡ journal_step last 0 line.now }
{
    let words = few_words::<10>(line)?;
    if words.is_empty() {
        return Some((None, last));
    }
    let (entry, next) = row_in(last, words.as_slice())?;
    Some((Some(entry), next))
}

#[tactic(auto, unfolding(crate::specs::JournalLines::row_of_entry))]
fn row_in(last: u64, words: &[&[u8]]) -> Option<(Entry, u64)>
    ensures { result ≡ row_of_entry last (map (λ word. word.now) words.now) }
{
    let (name, rest) = words.split_first()?;
    let entry = named_entry(last, name, rest)?;
    let next = last_install(last, &entry);
    Some((entry, next))
}

#[tactic(auto, unfolding(crate::specs::JournalLines::named_entry_of))]
fn named_entry(last: u64, name: &[u8], rest: &[&[u8]]) -> Option<Entry>
    ensures { result ≡ named_entry_of last name.now (map (λ word. word.now) rest.now) }
{
    if name == b"install".as_slice() {
        install_in(last, rest)
    } else if name == b"step".as_slice() {
        step_entry(last, rest)
    } else if name == b"trap".as_slice() {
        trap_in(last, rest)
    } else if name == b"seal".as_slice() {
        seal_in(rest)
    } else if name == b"accept".as_slice() {
        accept_in(rest)
    } else if name == b"hash".as_slice() {
        hash_in(rest)
    } else if name == b"stop".as_slice() {
        stop_in(last, rest)
    } else if name == b"kill".as_slice() {
        kill_in(last, rest)
    } else if name == b"out".as_slice() {
        out_in(rest)
    } else {
        None
    }
}

/// The number of the last install behind an entry.
fn last_install(last: u64, entry: &Entry) -> u64
    ensures { result ≡ last_behind last entry.now }
{
    match entry {
        Entry::Install { install, .. } => *install,
        Entry::Step { .. }
        | Entry::Trap { .. }
        | Entry::Seal { .. }
        | Entry::Accept { .. }
        | Entry::Hash { .. }
        | Entry::Stop { .. }
        | Entry::Kill { .. }
        | Entry::Out { .. } => last,
    }
}

#[tactic(auto, unfolding(crate::specs::JournalLines::install_entry_of))]
fn install_in(last: u64, words: &[&[u8]]) -> Option<Entry>
    ensures { result ≡ install_entry_of last (map (λ word. word.now) words.now) }
{
    match words {
        [install, slot, id, place, entry, lines] => {
            let install = next_install(last, install)?;
            let slot = count_below(slot, 17)?;
            let id = hex16(id)?;
            let place = decimal32(place)?;
            let entry = decimal32(entry)?;
            let lines = decimal32(lines)?;
            Some(Entry::Install {
                install,
                slot,
                id: ImageId(id),
                place,
                entry,
                lines,
            })
        }
        _ => None,
    }
}

#[tactic(auto, unfolding(crate::specs::JournalLines::step_entry_of))]
fn step_entry(last: u64, words: &[&[u8]]) -> Option<Entry>
    ensures { result ≡ step_entry_of last (map (λ word. word.now) words.now) }
{
    let (install, fields) = words.split_first()?;
    let install = installed(last, install)?;
    let step = step_in(fields)?;
    Some(Entry::Step { install, step })
}

#[tactic(auto, unfolding(crate::specs::JournalLines::trap_entry_of))]
fn trap_in(last: u64, words: &[&[u8]]) -> Option<Entry>
    ensures { result ≡ trap_entry_of last (map (λ word. word.now) words.now) }
{
    let (install, causes) = words.split_first()?;
    let install = installed(last, install)?;
    let cause = cause_in(causes)?;
    Some(Entry::Trap { install, cause })
}

#[tactic(auto, unfolding(crate::specs::JournalLines::cause_of))]
fn cause_in(words: &[&[u8]]) -> Option<Cause>
    ensures { result ≡ cause_of (map (λ word. word.now) words.now) }
{
    match words {
        [name] => {
            if *name == b"interrupt".as_slice() {
                Some(Cause::Interrupt)
            } else {
                None
            }
        }
        [name, detail] => named_cause(name, detail),
        _ => None,
    }
}

#[tactic(auto, unfolding(crate::specs::JournalLines::named_cause_of))]
fn named_cause(name: &[u8], detail: &[u8]) -> Option<Cause>
    ensures { result ≡ named_cause_of name.now detail.now }
{
    if name == b"call".as_slice() {
        let code = number32(detail)?;
        Some(Cause::Call(code))
    } else if name == b"page".as_slice() {
        let page = number32(detail)?;
        Some(Cause::Page(page))
    } else if name == b"fault".as_slice() {
        let kind = fault_in(detail)?;
        Some(Cause::Fault(kind))
    } else {
        None
    }
}

#[tactic(auto, unfolding(crate::specs::JournalLines::seal_entry_of))]
fn seal_in(words: &[&[u8]]) -> Option<Entry>
    ensures { result ≡ seal_entry_of (map (λ word. word.now) words.now) }
{
    match words {
        [key, message] => {
            let key = payload_in::<96>(key)?;
            let message = payload_in::<96>(message)?;
            Some(Entry::Seal { key, message })
        }
        _ => None,
    }
}

#[tactic(auto, unfolding(crate::specs::JournalLines::accept_entry_of))]
fn accept_in(words: &[&[u8]]) -> Option<Entry>
    ensures { result ≡ accept_entry_of (map (λ word. word.now) words.now) }
{
    match words {
        [key, message, place] => {
            let key = payload_in::<96>(key)?;
            let message = payload_in::<96>(message)?;
            let place = decimal32(place)?;
            Some(Entry::Accept {
                key,
                message,
                place,
            })
        }
        _ => None,
    }
}

#[tactic(auto, unfolding(crate::specs::JournalLines::hash_entry_of))]
fn hash_in(words: &[&[u8]]) -> Option<Entry>
    ensures { result ≡ hash_entry_of (map (λ word. word.now) words.now) }
{
    match words {
        [preimage, hash] => {
            let preimage = payload_in::<260>(preimage)?;
            let hash = hex32(hash)?;
            let true_hash = digest(preimage.bytes());
            if hash.as_slice() == true_hash.as_slice() {
                Some(Entry::Hash {
                    preimage,
                    digest: hash,
                })
            } else {
                None
            }
        }
        _ => None,
    }
}

#[tactic(auto, unfolding(crate::specs::JournalLines::stop_entry_of))]
fn stop_in(last: u64, words: &[&[u8]]) -> Option<Entry>
    ensures { result ≡ stop_entry_of last (map (λ word. word.now) words.now) }
{
    let (install, rules) = words.split_first()?;
    let install = installed(last, install)?;
    let rule = rule_in(rules)?;
    Some(Entry::Stop { install, rule })
}

#[tactic(auto, unfolding(crate::specs::JournalLines::rule_of))]
fn rule_in(words: &[&[u8]]) -> Option<Rule>
    ensures { result ≡ rule_of (map (λ word. word.now) words.now) }
{
    match words {
        [name, detail] => named_rule(name, detail),
        _ => None,
    }
}

#[tactic(auto, unfolding(crate::specs::JournalLines::named_rule_of))]
fn named_rule(name: &[u8], detail: &[u8]) -> Option<Rule>
    ensures { result ≡ named_rule_of name.now detail.now }
{
    if name == b"LineTag".as_slice() {
        let line = number32(detail)?;
        Some(Rule::LineTag(line))
    } else if name == b"TreeNode".as_slice() {
        let level = number8(detail)?;
        Some(Rule::TreeNode(level))
    } else if name == b"RegisterTag".as_slice() {
        let reg = number8(detail)?;
        Some(Rule::RegisterTag(reg))
    } else if name == b"RegisterMissing".as_slice() {
        let reg = number8(detail)?;
        Some(Rule::RegisterMissing(reg))
    } else {
        None
    }
}

#[tactic(auto, unfolding(crate::specs::JournalLines::kill_entry_of))]
fn kill_in(last: u64, words: &[&[u8]]) -> Option<Entry>
    ensures { result ≡ kill_entry_of last (map (λ word. word.now) words.now) }
{
    match words {
        [install] => {
            let install = installed(last, install)?;
            Some(Entry::Kill { install })
        }
        _ => None,
    }
}

#[tactic(auto, unfolding(crate::specs::JournalLines::out_entry_of))]
fn out_in(words: &[&[u8]]) -> Option<Entry>
    ensures { result ≡ out_entry_of (map (λ word. word.now) words.now) }
{
    match words {
        [byte] => {
            let byte = number8(byte)?;
            Some(Entry::Out { byte })
        }
        _ => None,
    }
}

/// The bytes of a hexadecimal word, at least one and at most `N`.
#[tactic(auto, unfolding(crate::specs::JournalLines::payload_of))]
fn payload_in<const N: usize>(word: &[u8]) -> Option<Payload<N>>
    requires { N < 65536 }
    ensures { result ≡ payload_of N word.now }
{
    let mut room = [0u8; N];
    let count = hex_into(word, &mut room)?;
    if 1 <= count {
        Some(Payload::new(&room[..count]))
    } else {
        None
    }
}

/// The number of an install that was made.
#[tactic(auto, unfolding(crate::specs::JournalLines::installed_of))]
fn installed(last: u64, word: &[u8]) -> Option<u64>
    ensures { result ≡ installed_of last word.now }
{
    let n = decimal(word)?;
    (1 <= n && n <= last).then_some(n)
}

/// The number of the next install.
#[tactic(auto, unfolding(crate::specs::JournalLines::next_install_of))]
fn next_install(last: u64, word: &[u8]) -> Option<u64>
    ensures { result ≡ next_install_of last word.now }
{
    let n = decimal(word)?;
    (1 <= n && n - 1 == last).then_some(n)
}

fn decimal32(word: &[u8]) -> Option<u32>
    ensures { result ≡ decimal_below_of (2 ^ 32) word.now }
{
    let n = decimal_below(word, 1 << 32)?;
    Some(n as u32)
}

fn number8(word: &[u8]) -> Option<u8>
    ensures { result ≡ number_below_of 256 word.now }
{
    let n = number_below(word, 256)?;
    Some(n as u8)
}
