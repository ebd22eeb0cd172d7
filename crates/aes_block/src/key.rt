/// A key of 128 bits, for AES-128.
#[derive(Clone, Copy, Debug, PartialEq, Eq)]
pub struct Key128(pub [u8; 16]);
