ghost use Rattle.std.specs.Prelude.{◌≡◌, ◌<◌, ◌^◌};
ghost use Rattle.mips_instruction.specs.Numbers.{jump_target, next_address, plus_signed, sign_extended, signed_number, target};
ghost use Rattle.mips_effect.specs.Arithmetic.{minus, sum, difference, is_less, bit_if, shifted_signed};

/// The sum of a number and a sign-extended immediate. It wraps.
pub fn plus_signed(n: u32, imm: u16) -> u32
    ensures { result ≡ plus_signed n imm }
{
    n.wrapping_add_signed(i32::from(imm.cast_signed()))
}

/// The target of a branch, whose following instruction has this address.
pub fn target(following: u32, imm: u16) -> u32
    ensures { result ≡ target following imm }
{
    following.wrapping_add_signed(4 * i32::from(imm.cast_signed()))
}

/// The target of a jump, whose following instruction has this address. The index has 26 bits.
pub fn jump_target(following: u32, index: u32) -> u32
    requires { index < 2 ^ 26 }
    ensures { result ≡ jump_target following index }
{
    following >> 28 << 28 | index << 2
}

/// The address of the instruction after the one at this address.
pub fn after(address: u32) -> u32
    ensures { result ≡ next_address address }
{
    address.wrapping_add(4)
}

/// An immediate, extended by its sign.
pub fn extended(imm: u16) -> u32
    ensures { result ≡ sign_extended imm }
{
    i32::from(imm.cast_signed()).cast_unsigned()
}

/// The difference that wraps.
pub fn minus(s: u32, t: u32) -> u32
    ensures { result ≡ minus s t }
{
    s.wrapping_sub(t)
}

/// The signed sum, and None where it leaves 32 bits.
pub fn sum(s: u32, t: u32) -> Option<u32>
    ensures { result ≡ sum s t }
{
    match s.cast_signed().checked_add(t.cast_signed()) {
        Some(sum) => Some(sum.cast_unsigned()),
        None => None,
    }
}

/// The signed difference, and None where it leaves 32 bits.
pub fn difference(s: u32, t: u32) -> Option<u32>
    ensures { result ≡ difference s t }
{
    match s.cast_signed().checked_sub(t.cast_signed()) {
        Some(difference) => Some(difference.cast_unsigned()),
        None => None,
    }
}

/// A shift to the right that copies the sign.
pub fn shifted_signed(t: u32, by: u8) -> u32
    requires { by < 32 }
    ensures { result ≡ shifted_signed t by }
{
    (t.cast_signed() >> by).cast_unsigned()
}

/// Whether one number is below another as signed numbers.
pub fn is_less(s: u32, t: u32) -> bool
    ensures { result ≡ is_less s t }
{
    s.cast_signed() < t.cast_signed()
}

/// 1 where it holds, else 0.
pub fn bit_if(holds: bool) -> u32
    ensures { result ≡ bit_if holds }
{
    u32::from(holds)
}
