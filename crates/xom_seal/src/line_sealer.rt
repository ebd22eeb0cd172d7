ghost use Rattle.std.specs.Prelude.{◌≡◌, SomeIff};
ghost use Rattle.xom_seal.specs.Messages.{line_message as line_message_of};
ghost use Rattle.xom_seal.specs.Sealing.{line_masked, line_opening, line_tag, sealed_line};

use crate::counter::line_counter;
use crate::mask::{masked, pad_of_two};
use crate::message::tag_of;
use crate::{LineKeys, LineName, LineOpening, LineSealing, SealedLine, line_message};
use aes_block::Schedule;
use keyed_mac::{MacKey, matches};
use std::marker::Model;
use xom_base::Short;

/// The keys of an image's or an install's lines, made ready for any number of them: the schedule of the
/// AES key and the states of the tag key. It is seen as the keys.
#[derive(Drop)]
pub struct LineSealer {
    tag: MacKey,
    aes: Schedule,
}

impl Model for LineSealer {
    ghost use Rattle.xom_seal.specs.declared.keys.LineKeys.{LineKeys};

    ghost Value = { LineKeys };

    ghost view = { λ s. record { tag = record { 0 = s.tag }; aes = record { 0 = s.aes } } };
}

impl LineSealer {
    /// Makes keys ready.
    pub fn new(keys: &LineKeys) -> LineSealer
        ensures { result ≡ keys.now }
    {
        LineSealer {
            tag: MacKey::new(&keys.tag.0),
            aes: Schedule::new(&keys.aes),
        }
    }

    /// The sealing of a line's plain bytes, and the message that was tagged.
    #[tactic(auto, unfolding(crate::specs::Sealing::line_tag))]
    pub fn seal(&self, name: &LineName, plain: &[u8; 32]) -> LineSealing
        ensures sealed { result.sealed ≡ sealed_line name.now self.now plain.now }
        ensures message { result.message ≡ line_message_of name.now result.sealed.ct }
    {
        let ct = self.masked(name, plain);
        let message = line_message(name, &ct);
        LineSealing {
            sealed: SealedLine {
                ct,
                tag: tag_of(&self.tag, &message),
            },
            message,
        }
    }

    /// The plain bytes of a sealed line, and the message whose tag it has. None exactly where its tag
    /// isn't that of its message, and then nothing is deciphered.
    #[tactic(auto, unfolding(crate::specs::Sealing::line_tag))]
    pub fn open(&self, name: &LineName, sealed: &SealedLine) -> Option<LineOpening>
        ensures { SomeIff result (sealed.now.tag ≡ line_tag name.now self.now sealed.now.ct) (line_opening name.now self.now sealed.now.ct) }
    {
        let message = line_message(name, &sealed.ct);
        if matches(&sealed.tag, &tag_of(&self.tag, &message)) {
            Some(LineOpening {
                plain: self.masked(name, &sealed.ct),
                message,
            })
        } else {
            None
        }
    }

    /// A line's bytes xor what AES-128 makes of its two counter blocks.
    #[tactic(auto, unfolding(crate::specs::Sealing::line_masked, crate::specs::Sealing::line_pad))]
    fn masked(&self, name: &LineName, bytes: &[u8; 32]) -> [u8; 32]
        ensures { result ≡ line_masked name.now self.now bytes.now }
    {
        let first = line_counter(name, 0);
        let second = line_counter(name, 1);
        masked(bytes, &pad_of_two(&self.aes, &first, &second))
    }
}
