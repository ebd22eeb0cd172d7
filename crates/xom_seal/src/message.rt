ghost use Rattle.std.specs.Prelude.{◌≡◌};
ghost use Rattle.keyed_mac.specs.Hmac.{hmac_sha256};
ghost use Rattle.xom_seal.specs.Messages.{envelope_message as envelope_message_of, line_message as line_message_of, register_message as register_message_of};

use crate::kinds::{ENVELOPE, IMAGE_LINE, REGISTER, RUN_LINE};
use crate::text::Text;
use crate::{LineName, RegName};
use keyed_mac::MacKey;
use xom_base::Short;

/// The message of a line, whose tag stands beside its ciphertext: 53 bytes for an image line, 61
/// for a run line.
#[tactic(auto, unfolding(crate::specs::Messages::line_message))]
pub fn line_message(name: &LineName, ct: &[u8; 32]) -> Short
    ensures { result ≡ line_message_of name.now ct.now }
{
    match *name {
        LineName::Image { id, line } => Text::of(IMAGE_LINE)
            .and(&id.0)
            .and(&line.to_be_bytes())
            .and(ct)
            .short(),
        LineName::Run {
            boot,
            install,
            line,
            version,
        } => Text::of(RUN_LINE)
            .and(&boot.to_be_bytes())
            .and(&install.to_be_bytes())
            .and(&line.to_be_bytes())
            .and(&version.to_be_bytes())
            .and(ct)
            .short(),
    }
}

/// The message of a saved register: 30 bytes.
#[tactic(auto, unfolding(crate::specs::Messages::register_message))]
pub fn register_message(name: &RegName, ct: &[u8; 4]) -> Short
    ensures { result ≡ register_message_of name.now ct.now }
{
    Text::of(REGISTER)
        .and(&name.boot.to_be_bytes())
        .and(&name.install.to_be_bytes())
        .and(&name.epoch.to_be_bytes())
        .and(&[name.reg])
        .and(ct)
        .short()
}

/// The message of an envelope: 57 bytes, of all that stands before its tag.
#[tactic(auto, unfolding(crate::specs::Messages::envelope_message))]
pub fn envelope_message(envelope: &[u8; 88]) -> Short
    ensures { result ≡ envelope_message_of envelope.now }
{
    Text::of(ENVELOPE).and(&envelope[..56]).short()
}

/// The message of the envelope that begins with these fields.
#[tactic(auto, unfolding(crate::specs::Messages::envelope_message))]
pub fn message_of_fields(fields: &[u8; 56]) -> Short
    ensures { result ≡ envelope_message_of fields.now }
{
    Text::of(ENVELOPE).and(fields).short()
}

/// The tag of a message, of whichever kind, under a key that was made ready.
pub fn tag_of(key: &MacKey, message: &Short) -> [u8; 32]
    ensures { result ≡ hmac_sha256 key.now message.now }
{
    key.tag(message.bytes())
}
