use xom_base::Op;

/// What a load takes from the aligned word around its address.
#[derive(Clone, Copy)]
pub enum LoadKind {
    /// The byte, extended by its sign.
    Byte,
    /// The byte, extended by zeros.
    ByteU,
    /// The half-word, extended by its sign. Its address is a multiple of 2.
    Half,
    /// The half-word, extended by zeros. Its address is a multiple of 2.
    HalfU,
    /// All of it. Its address is a multiple of 4.
    Word,
    /// `lwl`: the bytes from the address to the word's end, for the register's high end.
    Left,
    /// `lwr`: the bytes from the word's start through the address, for the register's low end.
    Right,
}

/// What null code may be told of the machine.
#[derive(Clone, Copy)]
pub enum Asked {
    /// `xstat`: the status of the last operation or kernel write.
    Status,
    /// `xcause`: why a guest left last.
    Cause,
    /// `xarg`: the number of that cause.
    Arg,
    /// `xwho`: the slot that left last.
    Who,
}

/// What an instruction wants beside the cells that it writes. The caller does it, or refuses.
#[derive(Clone, Copy)]
pub enum Wish {
    Nothing,
    /// A load into register `reg`, 0 to 31, where 0 means that the value is dropped. `old` is what
    /// the register had, where the load keeps a part of it, else 0.
    Load {
        reg: u8,
        address: u32,
        kind: LoadKind,
        old: u32,
    },
    /// A store of the 1 to 4 bytes of `value`, big-endian, from `address` on. It lies within one
    /// word.
    Store {
        address: u32,
        count: u8,
        value: u32,
    },
    /// `xlwn`: register `reg`, 0 to 31, gets the word of RAM at the address, a multiple of 4.
    NullLoad {
        reg: u8,
        address: u32,
    },
    /// `xswn`: the word goes to RAM at the address, a multiple of 4.
    NullStore {
        address: u32,
        value: u32,
    },
    /// `xhand`: where signals are handled from now on, 0 for nowhere.
    Hand(u32),
    /// `xsigret`: the pair that a signal kept comes back.
    SigRet,
    /// `xmvtn`: the value of register `reg`, 1 to 31, goes out of the compartment.
    Release {
        reg: u8,
        value: u32,
    },
    /// `xmvfn`: register `reg` gets the value of register `from`, which isn't the guest's own. Both
    /// are 1 to 31.
    Receive {
        reg: u8,
        from: u8,
    },
    /// `xexit`.
    Exit,
    /// `syscall`, with its code below 2^20.
    Call(u32),
    /// A privileged operation of null code.
    Do(Op),
    /// Register `reg`, 0 to 31, of null code is told this.
    Ask {
        reg: u8,
        what: Asked,
    },
}
