//! The kinds of what is tagged and enciphered: the first byte of a message, and of a counter block.

/// An image line.
pub const IMAGE_LINE: u8 = 1;

/// A run line.
pub const RUN_LINE: u8 = 2;

/// A register.
pub const REGISTER: u8 = 3;

/// An envelope.
pub const ENVELOPE: u8 = 4;
