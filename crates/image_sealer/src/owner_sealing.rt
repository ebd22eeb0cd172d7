ghost use Rattle.std.specs.Prelude.{◌≡◌, ◌≤◌, ◌<◌, ◌==◌, ◌&&◌, length, nat_lt};
ghost use Rattle.std.specs.Str.{bytes_eq};
ghost use Rattle.xom_seal.specs.Readers.{line_of_message};
ghost use Rattle.image_sealer.specs.Laws.{IsOwner};
ghost use Rattle.image_sealer.specs.Membership.{is_line_message, is_own_sealing, is_sealed};
ghost use Rattle.image_sealer.specs.Sealing.{line_count as line_count_of, line_sealing_of, sealing_of};

use crate::sealing::{contents, line_count, plain_line};
use std::marker::Model;
use xom_base::{Key256, Short};
use xom_owners::Owner;
use xom_seal::{LineName, LineSealer, envelope_message, image_keys, wrap};

/// How many bytes the message of an image line has.
const LINE_MESSAGE: usize = 53;

/// What an owner takes tags of for one machine, made ready for being looked up: the keys of the
/// image's lines and the message of the envelope. It is seen as the machine key and the owner.
#[derive(Drop)]
pub struct OwnerSealing<'a> {
    machine: Key256,
    owner: &'a Owner,
    lines: LineSealer,
    envelope: Short,
}

impl<'a> Model for OwnerSealing<'a> {
    ghost use Rattle.std.specs.Prelude.{◌≡◌};
    ghost use Rattle.image_sealer.specs.Laws.{IsOwner};
    ghost use Rattle.image_sealer.specs.Owned.{Owned};
    ghost use Rattle.image_sealer.specs.Sealing.{envelope_of};
    ghost use Rattle.xom_seal.specs.Keys.{image_keys};
    ghost use Rattle.xom_seal.specs.Messages.{envelope_message};

    ghost Value = { Owned };

    ghost view = { λ s. record { machine = s.machine; owner = s.owner.now } };

    ghost invariant = { λ s. IsOwner s.owner.now × (s.lines ≡ image_keys s.owner.now.key s.owner.now.id) × (s.envelope ≡ envelope_message (envelope_of s.machine s.owner.now)) };
}

impl<'a> OwnerSealing<'a> {
    /// Makes the keys and the envelope of an owner ready. Costs the same for each image.
    #[tactic(auto, unfolding(crate::specs::Sealing::envelope_of))]
    pub fn new(machine: &Key256, owner: &'a Owner) -> OwnerSealing<'a>
        ensures { result ≡ record { machine = machine.now; owner = owner.now } }
    {
        let contents = contents(owner);
        OwnerSealing {
            machine: *machine,
            owner,
            lines: LineSealer::new(&image_keys(&owner.key, &owner.id)),
            envelope: envelope_message(&wrap(machine, &contents)),
        }
    }

    /// Whether the owner takes a tag of this message under this key. Seals at most one line again:
    /// the one that the message names.
    #[tactic(auto, using(crate::proofs::Membership::members_are_told_by_their_names))]
    pub fn has(&self, key: &Short, message: &Short) -> bool
        ensures { result ≡ is_sealed key.now message.now (sealing_of self.now.machine self.now.owner) }
    {
        self.is_own(key, message)
    }

    /// The same, as the message tells it.
    fn is_own(&self, key: &Short, message: &Short) -> bool
        ensures value { result ≡ is_own_sealing self.now.machine self.now.owner key.now message.now }
        ensures owner { IsOwner self.now.owner }
    {
        key.bytes() == self.machine.0.as_slice() && message.bytes() == self.envelope.bytes()
            || key.bytes() == self.owner.key.0.as_slice() && self.is_line(message)
    }

    /// Whether the message is that of the line which it names.
    fn is_line(&self, message: &Short) -> bool
        ensures { result ≡ is_line_message self.now.owner message.now }
    {
        message.len() == LINE_MESSAGE && self.is_line_at(named_line(message.bytes()), message)
    }

    /// Whether the message is that of this line.
    #[tactic(auto, unfolding(crate::specs::Sealing::sealed_line_of))]
    fn is_line_at(&self, line: u32, message: &Short) -> bool
        ensures { result ≡ (nat_lt line (line_count_of self.now.owner.plain.bytes) && bytes_eq message.now (line_sealing_of self.now.owner line).1) }
    {
        let bytes = self.owner.plain.bytes.as_slice();
        if line >= line_count(bytes) {
            return false;
        }
        let name = LineName::Image {
            id: self.owner.id,
            line,
        };
        let sealing = self.lines.seal(&name, &plain_line(bytes, line));
        message.bytes() == sealing.message.bytes()
    }
}

/// The line that the message of an image line names.
fn named_line(message: &[u8]) -> u32
    requires { LINE_MESSAGE ≤ length message.now }
    ensures { result ≡ line_of_message message.now }
{
    u32::from_be_bytes([message[17], message[18], message[19], message[20]])
}
