/// For each first byte of a digest, the number of the Hash whose text was added to the block last.
/// It says where to look, and nothing rests on it: whoever looks there compares the texts.
#[derive(Drop)]
pub struct RecentHashes {
    numbers: [u64; 256],
}

impl RecentHashes {
    /// Each number is 0.
    pub fn new() -> RecentHashes {
        RecentHashes { numbers: [0; 256] }
    }

    /// The number that stands for the first byte of this digest.
    pub fn number(&self, digest: &[u8; 32]) -> u64 {
        self.numbers[usize::from(digest[0])]
    }

    /// Sets that number.
    pub fn set(&mut self, digest: &[u8; 32], number: u64) {
        self.numbers[usize::from(digest[0])] = number;
    }
}
