ghost use Rattle.std.specs.Prelude.{◌≡◌, ◌+◌, ◌<◌, ◌≤◌, ℕ, IfOk, length, slice_index};
ghost use Rattle.mips_asm.specs.Images.{IsOver};

use std::alloc::Global;
use xom_base::NoMemory;

/// So many zeros.
pub fn zeros(alloc: Global, count: usize) -> Result<Vec<u8>, NoMemory>
    ensures { IfOk result (λ bytes. (length bytes.items ≡ count) × ((k : ℕ) → slice_index bytes.items k ≡ 0)) }
{
    Ok(vec![in alloc; 0; count]?)
}

/// Puts bytes at a place of an image.
pub fn write(bytes: &mut [u8], start: usize, new: &[u8])
    requires { 0 < length new.now → start + length new.now ≤ length bytes.old }
    ensures { IsOver start new.now bytes.old bytes.new }
{
    for (k, byte) in new.iter().enumerate() {
        bytes[start + k] = *byte;
    }
}
