//! Names, keys and messages of what leaves the chip, and its sealing: lines of private memory,
//! registers, and the envelopes of images.
//!
//! What is sealed is enciphered by AES-128 over counter blocks and tagged by HMAC over SHA-256.
//! Unsealing answers plain bytes exactly where the tag is that of the message. Two names that
//! differ have messages that differ, whatever their ciphertexts. A sealed image is what an owner gives
//! to a machine: its envelope and its lines. Keys that serve for many lines or
//! registers are made ready once, as a `LineSealer` or a `RegisterSealer`. Nothing here takes memory.
#![tactic(auto)]

mod counter;
mod envelope;
mod keys;
mod kinds;
mod law;
mod line;
mod line_sealer;
mod mask;
mod message;
mod names;
mod register;
mod register_sealer;
mod sealed_image;
mod text;

pub use counter::register_counter;
pub use envelope::{Unwrapped, unwrap, wrap};
pub use keys::{LineKeys, RegisterKeys, image_keys, register_keys, run_keys};
pub use law::{
    counter_blocks_serve_one_name, counter_blocks_tell_their_names,
    envelope_messages_tell_contents, fields_are_told, heads_tell_their_names, kinds_are_told,
    messages_tell_their_names, openings_are_sealings, run_lines_are_told, sealings_have_their_form,
    sealings_open,
};
pub use line::{LineOpening, LineSealing, SealedLine, seal_line, unseal_line};
pub use line_sealer::LineSealer;
pub use message::{envelope_message, line_message, register_message};
pub use names::{LineName, RegName};
pub use register::{RegisterOpening, RegisterSealing, SealedReg, seal_register, unseal_register};
pub use register_sealer::RegisterSealer;
pub use sealed_image::{SealedImage, SealedLineList};
pub use text::part;
