ghost use Rattle.std.specs.Prelude.{◌≡◌};
ghost use Rattle.std.specs.Borrow.{sem};
ghost use Rattle.line_cache.specs.Lending.{LendsWay};
ghost use Rattle.line_cache.specs.Lines.{is_in_page};
ghost use Rattle.line_cache.specs.Ways.{free_way, is_free, is_of, new_way, victim_of};

use crate::Held;

/// A place of the cache with the line that it holds.
#[derive(Clone, Copy)]
pub struct Way {
    /// Whose line it is, 1 to 16, or 0 where the way is free.
    pub slot: u8,
    /// The number of the line, below 32,768.
    pub line: u32,
    /// What the line holds.
    pub bytes: Held<[u8; 32]>,
    /// Whether the bytes are still to be written back.
    pub dirty: bool,
}

/// A line that was taken out of the cache.
#[derive(Clone, Copy)]
pub struct Victim {
    /// Whose line it is, 1 to 16.
    pub slot: u8,
    /// The number of the line, below 32,768.
    pub line: u32,
    /// What the line held.
    pub bytes: [u8; 32],
    /// Whether the bytes are still to be written back.
    pub dirty: bool,
}

impl Way {
    /// A way without a line.
    pub fn free() -> Way
        ensures { result ≡ free_way }
    {
        Way {
            slot: 0,
            line: 0,
            bytes: Held::new([0; 32]),
            dirty: false,
        }
    }

    /// A line that was just brought in.
    pub fn new(slot: u8, line: u32, bytes: &[u8; 32]) -> Way
        ensures { result ≡ new_way slot line bytes.now }
    {
        Way {
            slot,
            line,
            bytes: Held::new(*bytes),
            dirty: false,
        }
    }

    /// Whether it holds no line.
    pub fn is_free(&self) -> bool
        ensures { result ≡ is_free self.now }
    {
        self.slot == 0
    }

    /// Whether it holds this line.
    pub fn is_of(&self, slot: u8, line: u32) -> bool
        ensures { result ≡ is_of slot line self.now }
    {
        self.slot == slot && self.line == line
    }

    /// Whether it holds a line of a page of a slot.
    pub fn is_in_page(&self, slot: u8, page: u32) -> bool
        ensures { result ≡ is_in_page slot page self.now }
    {
        self.slot == slot && self.line / 128 == page
    }

    /// The bytes, to be written, after which they are still to be written back.
    pub fn bytes_mut(&mut self) -> &mut [u8; 32]
        ensures* writes_back { sem 𝓛 (LendsWay self.entry result) }
        ensures value { result.now ≡ self.old.bytes }
    {
        self.dirty = true;
        self.bytes.lend()
    }

    /// What it holds, to be handed out.
    pub fn victim(&self) -> Victim
        ensures { result ≡ victim_of self.now }
    {
        Victim {
            slot: self.slot,
            line: self.line,
            bytes: *self.bytes.get(),
            dirty: self.dirty,
        }
    }
}
