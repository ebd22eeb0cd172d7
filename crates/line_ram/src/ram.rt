ghost use Rattle.std.specs.Prelude.{◌≡◌, ◌≤◌, ◌<◌, ◌+◌, ◌-◌, ◌*◌, ◌^◌, ◌++◌, ◌↔◌, List, ℕ, IfOk, IsTrue, drop, length, replicate, take, vec_capacity, vec_len};
ghost use Rattle.std.specs.Borrow.{sem};
ghost use Rattle.xom_base.specs.Frames.{frame_size};
ghost use Rattle.line_ram.specs.Bytes.{HoldsFrame, HoldsRange, bytes_at, ciphertext_place, frame_lines, ram_with_bytes, ram_with_line, tag_place};
ghost use Rattle.xom_base.specs.Sizes.{line_size};
ghost use Rattle.line_ram.specs.Lending.{LendsRange, stored_through};

use std::alloc::Global;
use std::marker::Model;
use xom_base::NoMemory;

/// The bytes of RAM: those up to the last that was used, and zeros behind them. Room for all is
/// there from the start; what isn't used isn't touched.
#[derive(Drop)]
pub struct LineRam {
    bytes: Vec<u8>,
    size: u32,
}

impl Model for LineRam {
    ghost use Rattle.std.specs.Prelude.{List, ℕ, length, ◌≤◌, ◌^◌, vec_capacity, vec_len};
    ghost use Rattle.xom_base.specs.Padded.{padded_block};

    ghost Value = { List ℕ };

    ghost view = { λ ram. padded_block ram.size ram.bytes.items };

    ghost invariant = { λ ram. (vec_len ram.bytes ≤ ram.size) × (ram.size ≤ 2 ^ 26) × (ram.size ≤ vec_capacity ram.bytes) };
}

impl LineRam {
    /// How many bytes a frame has.
    pub const FRAME: u32 = 8192;

    /// So many frames, 4 to 8,192, of zeros. None is touched.
    pub fn new(alloc: Global, frames: u32) -> Result<LineRam, NoMemory>
        requires few { 4 ≤ frames }
        requires many { frames ≤ 8192 }
        ensures { IfOk result (λ ram. ram ≡ replicate (frames * frame_size) 0) }
    {
        let size = frames * LineRam::FRAME;
        let bytes = Vec::with_capacity(alloc, size as usize)?;
        Ok(LineRam { bytes, size })
    }

    /// How many bytes there are, at most 67,108,864.
    pub fn size(&self) -> u32
        ensures value { result ≡ length self.now }
        ensures limit { length self.now ≤ 2 ^ 26 }
    {
        self.size
    }

    /// Whether a range lies in RAM.
    pub fn holds(&self, address: u32, length: u32) -> bool
        ensures { IsTrue result ↔ HoldsRange self.now address length }
    {
        u64::from(address) + u64::from(length) <= u64::from(self.size())
    }

    /// Copies the bytes from an address on into a slice.
    #[tactic(auto, using(crate::proofs::Touched::bytes_filled))]
    pub fn read(&self, address: u32, into: &mut [u8])
        requires { HoldsRange self.now address (length into.old) }
        ensures { into.new ≡ bytes_at self.now address (length into.old) }
    {
        copy_then_zeros(bytes_from(&self.bytes, address as usize), into);
    }

    /// Puts bytes from an address on.
    pub fn write(&mut self, address: u32, bytes: &[u8])
        requires { HoldsRange self.old address (length bytes.now) }
        ensures bytes { self.new ≡ ram_with_bytes self.old address bytes.now }
        ensures size { length self.new ≡ length self.old }
    {
        let from = address as usize;
        let end = from + bytes.len();
        reach(&mut self.bytes, end);
        self.bytes.slice_mut(from..end).copy_from_slice(bytes);
    }

    /// Lends a range, to be read and written in place. The first loan touches all of RAM.
    pub fn lend(&mut self, address: u32, count: u32) -> &mut [u8]
        requires { HoldsRange self.old address count }
        ensures* writes_back { sem 𝓛 (LendsRange self.entry address result) }
        ensures value { result.now ≡ bytes_at self.old address count }
        ensures length { length result.now ≡ count }
        ensures whole { (bytes : List ℕ) → length bytes ≡ count → stored_through self.old address bytes ≡ ram_with_bytes self.old address bytes }
    {
        let from = address as usize;
        reach(&mut self.bytes, self.size as usize);
        self.bytes.slice_mut(from..from + count as usize)
    }

    /// Lends the bytes of a frame. `line_of` lends a line's ciphertext and tag out of them.
    pub fn lend_frame(&mut self, frame: u32) -> &mut [u8]
        requires { HoldsFrame self.old frame }
        ensures* writes_back { sem 𝓛 (LendsRange self.entry (frame * frame_size) result) }
        ensures value { result.now ≡ bytes_at self.old (frame * frame_size) frame_size }
        ensures length { length result.now ≡ frame_size }
    {
        let _size = self.size();
        self.lend(frame * LineRam::FRAME, LineRam::FRAME)
    }

    /// Copies a frame's ciphertext and tag of its line of this index into two arrays.
    pub fn read_line(&self, frame: u32, index: u32, ciphertext: &mut [u8; 32], tag: &mut [u8; 32])
        requires frame { HoldsFrame self.now frame }
        requires index { index < frame_lines }
        ensures ciphertext { ciphertext.new ≡ bytes_at self.now (ciphertext_place frame index) line_size }
        ensures tag { tag.new ≡ bytes_at self.now (tag_place frame index) line_size }
    {
        let _size = self.size();
        let place = frame * LineRam::FRAME + 32 * index;
        self.read(place, ciphertext);
        self.read(place + 4096, tag);
    }

    /// Puts a ciphertext and a tag at a frame's line of this index.
    pub fn write_line(&mut self, frame: u32, index: u32, ciphertext: &[u8; 32], tag: &[u8; 32])
        requires frame { HoldsFrame self.old frame }
        requires index { index < frame_lines }
        ensures line { self.new ≡ ram_with_line self.old frame index ciphertext.now tag.now }
        ensures size { length self.new ≡ length self.old }
    {
        let _size = self.size();
        let place = frame * LineRam::FRAME + 32 * index;
        self.write(place, ciphertext);
        self.write(place + 4096, tag);
    }
}

/// Makes so many bytes used, where there is room: zeros behind those that are.
fn reach(bytes: &mut Vec<u8>, count: usize)
    requires { count ≤ vec_capacity bytes.old }
    ensures items { bytes.new.items ≡ bytes.old.items ++ replicate (count - length bytes.old.items) 0 }
    ensures len { vec_len bytes.new ≡ vec_len bytes.old + (count - vec_len bytes.old) }
    ensures capacity { vec_capacity bytes.old ≤ vec_capacity bytes.new }
{
    if bytes.len() < count {
        match bytes.resize(count, 0) {
            Ok(()) => {}
            Err(_) => unreachable!(),
        }
    }
}

/// The bytes from a place on, if there are any.
fn bytes_from(bytes: &[u8], from: usize) -> &[u8]
    ensures { result.now ≡ drop from bytes.now }
{
    bytes.get(from..).unwrap_or_default()
}

/// Copies bytes into a slice, and zeros behind them where it is longer.
#[tactic(auto, using(crate::proofs::Touched::zeros_behind))]
fn copy_then_zeros(bytes: &[u8], into: &mut [u8])
    ensures { into.new ≡ take (length into.old) (bytes.now ++ replicate (length into.old) 0) }
{
    if into.len() <= bytes.len() {
        into.copy_from_slice(&bytes[..into.len()]);
    } else {
        let (front, back) = into.split_at_mut(bytes.len());
        front.copy_from_slice(bytes);
        back.fill(0);
    }
}
