/// Where the tree of a store lies, and the digest that stands for all of it.
#[derive(Clone, Copy)]
pub struct Stand {
    /// The address of the area of 411,904 bytes in RAM.
    pub area: u32,
    /// The digest of the one block without a parent.
    pub root: [u8; 32],
}
