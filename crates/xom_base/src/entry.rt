use crate::{Block, Cause, ImageId, Rule, Short, Step};

/// One line of the journal, the machine's record of what it did.
#[derive(Clone, Copy)]
pub enum Entry {
    /// A guest was installed. Install numbers count from 1, slots are 1 to 16, `place` is the
    /// address of its envelope, and `lines` its number of lines of 32 bytes.
    Install {
        install: u64,
        slot: u8,
        id: ImageId,
        place: u32,
        entry: u32,
        lines: u32,
    },
    /// An instruction of a guest retired, or a signal was delivered to it.
    Step {
        install: u64,
        step: Step,
    },
    /// A guest left the processor and may go on later.
    Trap {
        install: u64,
        cause: Cause,
    },
    /// The machine sealed this message under this key.
    Seal {
        key: Short,
        message: Short,
    },
    /// The machine accepted this message under this key, from this address of RAM.
    Accept {
        key: Short,
        message: Short,
        place: u32,
    },
    /// The machine hashed this text.
    Hash {
        preimage: Block,
        digest: [u8; 32],
    },
    /// A guest was stopped by a rule.
    Stop {
        install: u64,
        rule: Rule,
    },
    /// The kernel freed a guest's slot.
    Kill {
        install: u64,
    },
    /// The kernel wrote a byte to the console.
    Out {
        byte: u8,
    },
}
