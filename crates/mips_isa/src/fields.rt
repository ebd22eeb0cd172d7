ghost use Rattle.std.specs.Prelude.{◌≡◌};
ghost use Rattle.mips_instruction.specs.Words.{code_field, function_of, imm_of, index_field, op_of, rd_of, rs_of, rt_of, sa_of};

/// Bits 31 to 26.
pub fn op(word: u32) -> u8
    ensures { result ≡ op_of word }
{
    (word >> 26) as u8
}

/// Bits 25 to 21.
pub fn rs(word: u32) -> u8
    ensures { result ≡ rs_of word }
{
    (word >> 21 & 31) as u8
}

/// Bits 20 to 16.
pub fn rt(word: u32) -> u8
    ensures { result ≡ rt_of word }
{
    (word >> 16 & 31) as u8
}

/// Bits 15 to 11.
pub fn rd(word: u32) -> u8
    ensures { result ≡ rd_of word }
{
    (word >> 11 & 31) as u8
}

/// Bits 10 to 6.
pub fn sa(word: u32) -> u8
    ensures { result ≡ sa_of word }
{
    (word >> 6 & 31) as u8
}

/// Bits 5 to 0.
pub fn function(word: u32) -> u8
    ensures { result ≡ function_of word }
{
    (word & 63) as u8
}

/// Bits 15 to 0.
pub fn imm(word: u32) -> u16
    ensures { result ≡ imm_of word }
{
    (word & 0xffff) as u16
}

/// Bits 25 to 6.
pub fn code(word: u32) -> u32
    ensures { result ≡ code_field word }
{
    word >> 6 & 0xf_ffff
}

/// Bits 25 to 0.
pub fn index(word: u32) -> u32
    ensures { result ≡ index_field word }
{
    word & 0x3ff_ffff
}
