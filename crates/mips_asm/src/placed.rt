ghost use Rattle.std.specs.Prelude.{◌≡◌};

use asm_source::{Content, Part};
use std::marker::Model;

/// A label or a statement at its place. Contracts see it as its place, its size and itself.
#[derive(Drop)]
pub struct Placed<'a> {
    place: u64,
    size: u64,
    part: &'a Part,
}

impl<'a> Model for Placed<'a> {
    ghost use Rattle.mips_asm.specs.Places.{Placed as PlacedPart};

    ghost Value = { PlacedPart };

    ghost view = { λ p. record { place = p.place; size = p.size; part = p.part.now } };
}

impl<'a> Placed<'a> {
    /// A label or a statement that stands at a place and writes so many bytes from there on.
    pub fn new(place: u64, size: u64, part: &'a Part) -> Placed<'a>
        ensures { result ≡ record { place = place; size = size; part = part.now } }
    {
        Placed { place, size, part }
    }

    /// The place at which it stands.
    pub fn place(&self) -> u64
        ensures { result ≡ self.now.place }
    {
        self.place
    }

    /// How many bytes it writes from there on.
    pub fn size(&self) -> u64
        ensures { result ≡ self.now.size }
    {
        self.size
    }

    /// The line in which it stands.
    pub fn line(&self) -> u64
        ensures { result ≡ self.now.part.line }
    {
        self.part.line
    }

    /// What it says.
    pub fn content(&self) -> &'a Content
        ensures { result.now ≡ self.now.part.content }
    {
        &self.part.content
    }
}
