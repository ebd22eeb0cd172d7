ghost use Rattle.std.specs.Prelude.{◌≡◌, ◌≤◌, ◌^◌, true};
ghost use Rattle.cli_runs.specs.Places.{fits_from, frames_of_guest};

use xom_base::List;
use xom_seal::SealedLineList;

/// The frame of the first guest's envelope.
pub const FIRST_FRAME: u32 = 16;

/// How many lines a page has.
const PAGE_LINES: u64 = 128;

/// The image of a guest, as its sealed image file has it. No tag was looked at.
#[derive(Drop)]
pub struct GuestImage {
    /// Its envelope.
    pub envelope: [u8; 88],
    /// Its lines from address 0 on.
    pub lines: SealedLineList,
}

/// A growing list of images of guests.
pub type GuestImageList = List<GuestImage>;

/// How many frames of RAM a guest takes at power-on: one for its envelope, and one for each page of its
/// image, of which the last may be begun alone.
pub fn frames_of(image: &GuestImage) -> u64
    ensures value { result ≡ frames_of_guest image.now }
    ensures few { result ≤ 2 ^ 60 }
{
    1 + (image.lines.as_slice().len() as u64 + 127) / PAGE_LINES
}

/// Whether a guest, whose envelope is to stand in this frame, lies in a RAM of so many frames.
pub fn fits_from(frames: u32, frame: u32, image: &GuestImage) -> bool
    ensures { result ≡ fits_from frames frame image.now }
{
    u64::from(frame) + frames_of(image) <= u64::from(frames)
}
