//! How the owner of an image seals it for one machine.
//!
//! What `seal` gives is the sealed image of its definition, byte for byte. The machine whose key it
//! was sealed under opens it to the owner's id, entry, key and lines. `OwnerSealing` tells of a key and a
//! message whether the owner takes that tag, from the line that the message names.
#![tactic(auto)]

mod law;
mod owner_sealing;
mod sealing;

pub use law::{sealed_images_open, sealings_are_of_the_image};
pub use owner_sealing::OwnerSealing;
pub use sealing::seal;
