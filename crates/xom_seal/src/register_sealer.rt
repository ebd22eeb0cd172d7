ghost use Rattle.std.specs.Prelude.{◌≡◌, SomeIff};
ghost use Rattle.xom_seal.specs.Messages.{register_message as register_message_of};
ghost use Rattle.xom_seal.specs.Sealing.{register_masked, register_opening, register_tag, sealed_register};

use crate::counter::register_counter;
use crate::mask::masked;
use crate::message::tag_of;
use crate::text::part;
use crate::{RegName, RegisterKeys, RegisterOpening, RegisterSealing, SealedReg, register_message};
use aes_block::Schedule;
use keyed_mac::{MacKey, matches};
use std::marker::Model;
use xom_base::Short;

/// The keys of an install's registers under one epoch, made ready for any number of them: the schedule of
/// the AES key and the states of the tag key. It is seen as the keys.
#[derive(Drop)]
pub struct RegisterSealer {
    aes: Schedule,
    tag: MacKey,
}

impl Model for RegisterSealer {
    ghost use Rattle.xom_seal.specs.declared.keys.RegisterKeys.{RegisterKeys};

    ghost Value = { RegisterKeys };

    ghost view = { λ s. record { aes = record { 0 = s.aes }; tag = record { 0 = s.tag } } };
}

impl RegisterSealer {
    /// Makes keys ready.
    pub fn new(keys: &RegisterKeys) -> RegisterSealer
        ensures { result ≡ keys.now }
    {
        RegisterSealer {
            aes: Schedule::new(&keys.aes),
            tag: MacKey::new(&keys.tag.0),
        }
    }

    /// The sealing of a register's value, and the message that was tagged.
    #[tactic(auto, unfolding(crate::specs::Sealing::register_tag))]
    pub fn seal(&self, name: &RegName, value: u32) -> RegisterSealing
        ensures sealed { result.sealed ≡ sealed_register name.now self.now value }
        ensures message { result.message ≡ register_message_of name.now result.sealed.ct }
    {
        let ct = self.masked(name, &value.to_be_bytes());
        let message = register_message(name, &ct);
        RegisterSealing {
            sealed: SealedReg {
                ct,
                tag: tag_of(&self.tag, &message),
            },
            message,
        }
    }

    /// The value of a sealed register, and the message whose tag it has. None exactly where its tag isn't
    /// that of its message, and then nothing is deciphered.
    #[tactic(auto, unfolding(crate::specs::Sealing::register_tag))]
    pub fn open(&self, name: &RegName, sealed: &SealedReg) -> Option<RegisterOpening>
        ensures { SomeIff result (sealed.now.tag ≡ register_tag name.now self.now sealed.now.ct) (register_opening name.now self.now sealed.now.ct) }
    {
        let message = register_message(name, &sealed.ct);
        if matches(&sealed.tag, &tag_of(&self.tag, &message)) {
            let plain = self.masked(name, &sealed.ct);
            Some(RegisterOpening {
                value: u32::from_be_bytes(plain),
                message,
            })
        } else {
            None
        }
    }

    /// A register's bytes xor the first 4 that AES-128 makes of its counter block.
    #[tactic(auto, unfolding(crate::specs::Sealing::register_masked, crate::specs::Sealing::register_pad))]
    fn masked(&self, name: &RegName, bytes: &[u8; 4]) -> [u8; 4]
        ensures { result ≡ register_masked name.now self.now bytes.now }
    {
        let block = self.aes.encrypt(&register_counter(name));
        masked(bytes, &part(&block, 0))
    }
}
