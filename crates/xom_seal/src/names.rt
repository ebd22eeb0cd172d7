use xom_base::ImageId;

/// The name of a line of 32 bytes of private memory, with its version.
#[derive(Clone, Copy, Debug, PartialEq, Eq)]
pub enum LineName {
    /// A line of an image, as its owner sealed it. `line` counts from 0 in the image. Its version
    /// is 1 always.
    Image {
        id: ImageId,
        line: u32,
    },
    /// A line that the machine wrote back for an install. `boot` is the number of the machine's
    /// start, `install` the number of the install under it, `line` counts from 0 in private memory,
    /// and each writing back of the line has a version of its own.
    Run {
        boot: u64,
        install: u64,
        line: u32,
        version: u64,
    },
}

/// The name of a saved register of an install.
#[derive(Clone, Copy, Debug, PartialEq, Eq)]
pub struct RegName {
    /// The number of the machine's start.
    pub boot: u64,
    /// The number of the install under it.
    pub install: u64,
    /// The epoch of the install's registers in which this one was saved.
    pub epoch: u64,
    /// The number of the register: 1 to 31, 32 for HI, 33 for LO.
    pub reg: u8,
}
