use xom_base::{Cause, Op};

/// What a kernel does next.
#[derive(Clone, Copy)]
pub enum Turn {
    /// A privileged operation.
    Do(Op),
    /// A kernel write of so many bytes of the chunk.
    Write { address: u32, length: u32 },
    /// One instruction of null code.
    Null,
}

/// Why a null instruction ends the run.
#[derive(Clone, Copy)]
pub enum NullFault {
    /// The word is no instruction, or one that null code doesn't have.
    Reserved,
    /// A signed sum or difference leaves 32 bits.
    Overflow,
    /// An address isn't aligned, or not wholly in RAM.
    Address,
    /// `break`.
    Break,
    /// `syscall`.
    Call,
}

/// What an event came to.
#[derive(Clone, Copy)]
pub enum Outcome {
    /// It was done or refused, and the machine goes on.
    Went,
    /// The running guest left.
    Left(Cause),
    /// The kernel halted the machine.
    Halted,
    /// The null instruction at this address faulted.
    KernelFault { pc: u32, fault: NullFault },
}

/// How a run ended.
#[derive(Clone, Copy)]
pub enum RunEnd {
    /// The kernel halted.
    Halted,
    /// The null instruction at this address faulted.
    KernelFault { pc: u32, fault: NullFault },
    /// The events reached the budget.
    Budget,
    /// No memory was found for the journal.
    NoMemory,
}
