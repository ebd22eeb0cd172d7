ghost use Rattle.std.specs.Prelude.{◌≡◌, SomeIff};
ghost use Rattle.xom_seal.specs.Envelopes.{contents_of, envelope_contents, envelope_fields, envelope_tag, key_masked, tag_in, wrapped_key_of};

use crate::counter::envelope_counter;
use crate::keys::envelope_key;
use crate::mask::{masked, pad_of_two};
use crate::message::{envelope_message, message_of_fields};
use crate::text::{Text, part};
use aes_block::Schedule;
use keyed_mac::{matches, tag};
use xom_base::{ImageId, Key256};

/// What an envelope says of its image.
#[derive(Clone, Copy, Debug, PartialEq, Eq)]
pub struct Unwrapped {
    /// The image's public name.
    pub id: ImageId,
    /// The address at which the image is entered.
    pub entry: u32,
    /// How many lines of 32 bytes the image has.
    pub lines: u32,
    /// The image key.
    pub key: Key256,
}

/// The envelope for an image, which this machine alone can open: id (16 bytes), entry (4),
/// lines (4), wrapped key (32), tag (32).
#[tactic(auto, unfolding(crate::specs::Envelopes::wrapped_key_of))]
pub fn wrap(machine: &Key256, plain: &Unwrapped) -> [u8; 88]
    ensures { result ≡ wrapped_key_of machine.now plain.now }
{
    let key = masked_key(machine, &plain.id, &plain.key.0);
    let fields = fields(plain, &key);
    let tag = tag_of_fields(machine, &fields);
    Text::new().and(&fields).and(&tag).array()
}

/// All that stands before the tag in the envelope for an image, whose key is wrapped as this.
#[tactic(auto, unfolding(crate::specs::Envelopes::envelope_fields))]
fn fields(plain: &Unwrapped, wrapped: &[u8; 32]) -> [u8; 56]
    ensures { result ≡ envelope_fields plain.now.id.0 plain.now.entry plain.now.lines wrapped.now }
{
    Text::new()
        .and(&plain.id.0)
        .and(&plain.entry.to_be_bytes())
        .and(&plain.lines.to_be_bytes())
        .and(wrapped)
        .array()
}

/// What an envelope says of its image. None exactly where its tag isn't that of its message under
/// the machine key, and then nothing is deciphered.
pub fn unwrap(machine: &Key256, envelope: &[u8; 88]) -> Option<Unwrapped>
    ensures exact { SomeIff result (tag_in envelope.now ≡ envelope_tag machine.now envelope.now) (contents_of machine.now envelope.now) }
    ensures value { result ≡ envelope_contents machine.now envelope.now }
{
    if matches(&part(envelope, 56), &tag_of_envelope(machine, envelope)) {
        Some(contents(machine, envelope))
    } else {
        None
    }
}

/// What stands in the fields of an envelope.
#[tactic(auto, unfolding(crate::specs::Envelopes::contents_of))]
fn contents(machine: &Key256, envelope: &[u8; 88]) -> Unwrapped
    ensures { result ≡ contents_of machine.now envelope.now }
{
    let id = ImageId(part(envelope, 0));
    Unwrapped {
        id,
        entry: u32::from_be_bytes(part(envelope, 16)),
        lines: u32::from_be_bytes(part(envelope, 20)),
        key: Key256(masked_key(machine, &id, &part(envelope, 24))),
    }
}

/// An image key xor what AES-128 makes of the two counter blocks of envelopes.
#[tactic(auto, unfolding(crate::specs::Envelopes::key_masked, crate::specs::Envelopes::envelope_pad))]
fn masked_key(machine: &Key256, id: &ImageId, key: &[u8; 32]) -> [u8; 32]
    ensures { result ≡ key_masked machine.now id.now.0 key.now }
{
    let aes = Schedule::new(&envelope_key(machine, id));
    let pad = pad_of_two(&aes, &envelope_counter(0), &envelope_counter(1));
    masked(key, &pad)
}

/// The tag of the message of these fields.
#[tactic(auto, unfolding(crate::specs::Envelopes::envelope_tag))]
fn tag_of_fields(machine: &Key256, fields: &[u8; 56]) -> [u8; 32]
    ensures { result ≡ envelope_tag machine.now fields.now }
{
    tag(&machine.0, message_of_fields(fields).bytes())
}

/// The tag of the message of an envelope.
#[tactic(auto, unfolding(crate::specs::Envelopes::envelope_tag))]
fn tag_of_envelope(machine: &Key256, envelope: &[u8; 88]) -> [u8; 32]
    ensures { result ≡ envelope_tag machine.now envelope.now }
{
    tag(&machine.0, envelope_message(envelope).bytes())
}
