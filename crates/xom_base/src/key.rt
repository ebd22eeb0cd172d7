/// A key of 256 bits: of a machine or of an image.
#[derive(Clone, Copy, Debug, PartialEq, Eq)]
pub struct Key256(pub [u8; 32]);

/// The public name of an image, chosen by its owner.
#[derive(Clone, Copy, Debug, PartialEq, Eq)]
pub struct ImageId(pub [u8; 16]);
