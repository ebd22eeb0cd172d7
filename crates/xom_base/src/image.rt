ghost use Rattle.std.specs.Prelude.{◌≡◌, ◌≤◌, ◌<◌, ◌%◌, ◌^◌, length};

use crate::ByteList;

/// A program before it is sealed. The bytes are its private memory from address 0 on; what is
/// behind them is zero.
#[derive(Drop)]
pub struct PlainImage {
    /// The address of its first instruction.
    pub entry: u32,
    /// At most 1,048,576 bytes.
    pub bytes: ByteList,
    pub ghost fits: { length bytes ≤ 2 ^ 20 },
    pub ghost aligned: { entry % 4 ≡ 0 },
    pub ghost private: { entry < 2 ^ 20 },
}
