ghost use Rattle.std.specs.Prelude.{◌≡◌, ◌<◌};
ghost use Rattle.xom_seal.specs.Counters.{counter_block as counter_block_of, envelope_counter as envelope_counter_of, line_counter as line_counter_of, register_counter as register_counter_of};

use crate::kinds::{ENVELOPE, IMAGE_LINE, REGISTER, RUN_LINE};
use crate::text::Text;
use crate::{LineName, RegName};

/// The version that all image lines have.
const IMAGE_VERSION: u64 = 1;

/// One of the two counter blocks of a line, 0 or 1.
pub fn line_counter(name: &LineName, block: u8) -> [u8; 16]
    ensures { result ≡ line_counter_of name.now block }
{
    match *name {
        LineName::Image { id: _id, line } => counter_block(IMAGE_LINE, block, line, IMAGE_VERSION),
        LineName::Run {
            boot: _boot,
            install: _install,
            line,
            version,
        } => counter_block(RUN_LINE, block, line, version),
    }
}

/// The counter block of a register.
pub fn register_counter(name: &RegName) -> [u8; 16]
    ensures { result ≡ register_counter_of name.now }
{
    counter_block(REGISTER, 0, u32::from(name.reg), name.epoch)
}

/// One of the two counter blocks of an envelope, 0 or 1.
pub fn envelope_counter(block: u8) -> [u8; 16]
    ensures { result ≡ envelope_counter_of block }
{
    counter_block(ENVELOPE, block, 0, 0)
}

/// A counter block: domain, block, two zeros, line or register, version or epoch.
#[tactic(auto, unfolding(crate::specs::Counters::counter_block))]
fn counter_block(domain: u8, block: u8, place: u32, version: u64) -> [u8; 16]
    ensures { result ≡ counter_block_of domain block place version }
{
    Text::of(domain)
        .and(&[block, 0, 0])
        .and(&place.to_be_bytes())
        .and(&version.to_be_bytes())
        .array()
}
