use xom_base::{ImageId, Key256, List, Schedule};
use xom_io::Name;

/// The owner of an image: its plain file, the key that seals it, and its public name.
#[derive(Drop)]
pub struct OwnerFile {
    /// The plain image file.
    pub plain: Name,
    /// The image key.
    pub key: Key256,
    /// The public name, which no other owner of the run has.
    pub id: ImageId,
}

/// A growing list of owners.
pub type OwnerFileList = List<OwnerFile>;

/// A guest: its sealed image file, and maybe its input file.
#[derive(Drop)]
pub struct GuestFile {
    /// The number of its line in the run file, counted from 1.
    pub line: u64,
    /// The sealed image file.
    pub sealed: Name,
    /// The file of what it may read.
    pub input: Option<Name>,
}

/// A growing list of guests.
pub type GuestFileList = List<GuestFile>;

/// What the kernel does.
#[derive(Drop)]
pub enum KernelLine {
    /// It follows the script of this file.
    Script(Name),
    /// It runs the plain image of this file.
    Image(Name),
    /// It is XOMOS, with so many frames for the pages of each guest: 2 to 256.
    Xomos(u32),
}

/// What a run is made of.
#[derive(Drop)]
pub struct RunFile {
    /// The machine key.
    pub machine: Key256,
    /// The number of the power-on, below 2^63.
    pub boot: u64,
    /// How many frames of 8,192 bytes RAM has: 4 to 8,192.
    pub frames: u32,
    /// At most how many events are made: at most 1,048,576.
    pub budget: u64,
    /// At most 16, of different public names.
    pub owners: OwnerFileList,
    /// At most 16.
    pub guests: GuestFileList,
    /// The kernel.
    pub kernel: KernelLine,
    /// The number of the kernel's line in the run file, counted from 1.
    pub kernel_line: u64,
    /// The interrupt line, and the writes of the bus, each inside RAM.
    pub schedule: Schedule,
}
