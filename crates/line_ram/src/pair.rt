ghost use Rattle.std.specs.Prelude.{◌≡◌, ◌<◌, ◌+◌, ◌*◌, length};
ghost use Rattle.std.specs.Borrow.{sem};
ghost use Rattle.xom_base.specs.Frames.{frame_size};
ghost use Rattle.line_ram.specs.Bytes.{bytes_at, frame_lines, tags_offset};
ghost use Rattle.xom_base.specs.Sizes.{line_size};
ghost use Rattle.line_ram.specs.Pairs.{IsPair, LendsPair};

/// How many bytes a line has, and as many its tag.
const LINE: usize = 32;

/// Where a frame has its tags, behind 128 ciphertexts.
const TAGS: usize = 4096;

/// Lends a line's ciphertext and tag, both at once, out of the bytes of its frame. The index of a line
/// in its frame is 0 to 127.
pub fn line_of(frame: &mut [u8], index: u32) -> (&mut [u8; 32], &mut [u8; 32])
    requires frame { length frame.old ≡ frame_size }
    requires index { index < frame_lines }
    ensures* writes_back { sem 𝓛 (LendsPair frame.entry (line_size * index) (tags_offset + line_size * index) result) }
    ensures ciphertext { result.0.now ≡ bytes_at frame.old (line_size * index) line_size }
    ensures tag { result.1.now ≡ bytes_at frame.old (tags_offset + line_size * index) line_size }
{
    let place = LINE * index as usize;
    two_of(frame, place, TAGS + place)
}

/// Lends 32 bytes at each of two places.
fn two_of(bytes: &mut [u8], first: usize, second: usize) -> (&mut [u8; 32], &mut [u8; 32])
    requires { IsPair bytes.old first second }
    ensures* writes_back { sem 𝓛 (LendsPair bytes.entry first second result) }
    ensures value { (result.0.now ≡ bytes_at bytes.old first line_size) × (result.1.now ≡ bytes_at bytes.old second line_size) }
{
    let base = bytes.as_mut_ptr();
    unsafe {
        (
            &mut *(base.add(first) as *mut [u8; 32]),
            &mut *(base.add(second) as *mut [u8; 32]),
        )
    }
}
