/// A fault of a guest's own making, found before its instruction changes anything.
#[derive(Clone, Copy, Debug, PartialEq, Eq)]
pub enum OwnFault {
    /// The word is no instruction, or one that a guest doesn't have.
    Reserved,
    /// A register is read that the guest doesn't own, or `xmvfn` names one that it owns.
    Foreign,
    /// A signed sum or difference leaves 32 bits.
    Overflow,
    /// An address isn't aligned, or lies outside private memory.
    Address,
    /// `break`.
    Break,
}

/// Why a guest was stopped for good. There is no other way to be stopped.
#[derive(Clone, Copy, Debug, PartialEq, Eq)]
pub enum Rule {
    /// The tag of this line in RAM isn't that of its bytes. Lines are 0 to 32,767.
    LineTag(u32),
    /// The block of this level of the hash tree differs from the digest above it. Levels are 0 to 4.
    TreeNode(u8),
    /// The tag of this saved register isn't that of its bytes. Registers are 1 to 33.
    RegisterTag(u8),
    /// This register was owned and isn't tagged when the guest is resumed: the least one.
    RegisterMissing(u8),
}

/// Why a guest left the processor.
#[derive(Clone, Copy, Debug, PartialEq, Eq)]
pub enum Cause {
    /// No guest has left yet.
    Nothing,
    /// The interrupt line.
    Interrupt,
    /// `syscall`, with its code below 2^20.
    Call(u32),
    /// A private page that isn't mapped, 0 to 255.
    Page(u32),
    /// A fault of its own.
    Fault(OwnFault),
    /// `xexit`.
    Exit,
    /// It was stopped by a rule.
    Stopped(Rule),
}

/// A privileged operation of the kernel. Any number may be given; what is out of range is refused.
#[derive(Clone, Copy)]
pub enum Op {
    /// Makes a free slot hold the guest of the envelope at this address of RAM.
    Install { slot: u32, envelope: u32, area: u32 },
    /// Starts a fresh guest at its entry.
    Enter { slot: u32 },
    /// Goes on with a paused guest, with a signal from 1 to 63, or 0 for none.
    Resume { slot: u32, signal: u32 },
    /// Seals a register of a paused guest into RAM.
    Save { slot: u32, reg: u32, address: u32 },
    /// Puts a sealed register back.
    Restore { slot: u32, reg: u32, address: u32 },
    /// Gives a private page a frame of RAM.
    Map { slot: u32, page: u32, frame: u32 },
    /// Takes a private page's frame away.
    Unmap { slot: u32, page: u32 },
    /// Sets a register to a value of the null compartment.
    SetReg { reg: u32, value: u32 },
    /// Frees a slot.
    Kill { slot: u32 },
    /// Writes a byte to the console.
    Out { byte: u8 },
    /// Ends the run.
    Halt,
}

/// One atomic step of the whole machine.
#[derive(Clone, Copy)]
pub enum Event {
    /// A privileged operation.
    Do(Op),
    /// A kernel write of this many bytes of RAM, at most 8,192.
    Write { address: u32, length: u32 },
    /// One instruction of null code.
    Null,
    /// One instruction of the running guest, with the interrupt line after it.
    Guest { interrupt: bool },
    /// A write by the bus, of at most 8,192 bytes.
    Poke { address: u32, length: u32 },
}
