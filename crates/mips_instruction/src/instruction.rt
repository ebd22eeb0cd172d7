/// An instruction, with its operands in the order of its text.
///
/// `rd`, `rs`, `rt` are registers and `sa` is a shift amount, each 0 to 31; `imm` is the immediate
/// as it stands in the word, before any extension; `code` is 20 bits wide, and `index` 26. The
/// target of a branch is told by `imm` and that of a jump by `index`, as they stand in the word.
#[derive(Clone, Copy)]
pub enum Ins {
    /// `sll rd, rt, sa`: shift left.
    Sll { rd: u8, rt: u8, sa: u8 },
    /// `srl rd, rt, sa`: shift right, zeros from the left.
    Srl { rd: u8, rt: u8, sa: u8 },
    /// `sra rd, rt, sa`: shift right, copies of the sign from the left.
    Sra { rd: u8, rt: u8, sa: u8 },
    /// `sllv rd, rt, rs`: shift left by the low 5 bits of `rs`.
    Sllv { rd: u8, rt: u8, rs: u8 },
    /// `srlv rd, rt, rs`: shift right by the low 5 bits of `rs`, zeros from the left.
    Srlv { rd: u8, rt: u8, rs: u8 },
    /// `srav rd, rt, rs`: shift right by the low 5 bits of `rs`, copies of the sign from the left.
    Srav { rd: u8, rt: u8, rs: u8 },
    /// `jr rs`: jump to a register's address.
    Jr { rs: u8 },
    /// `jalr rd, rs`: jump to a register's address, with the link in `rd`.
    Jalr { rd: u8, rs: u8 },
    /// `syscall code`: leave by a call.
    Syscall { code: u32 },
    /// `break code`: a fault of its own.
    Break { code: u32 },
    /// `mfhi rd`: read HI.
    Mfhi { rd: u8 },
    /// `mthi rs`: write HI.
    Mthi { rs: u8 },
    /// `mflo rd`: read LO.
    Mflo { rd: u8 },
    /// `mtlo rs`: write LO.
    Mtlo { rs: u8 },
    /// `mult rs, rt`: signed product into HI and LO.
    Mult { rs: u8, rt: u8 },
    /// `multu rs, rt`: unsigned product into HI and LO.
    Multu { rs: u8, rt: u8 },
    /// `div rs, rt`: signed quotient into LO, remainder into HI.
    Div { rs: u8, rt: u8 },
    /// `divu rs, rt`: unsigned quotient into LO, remainder into HI.
    Divu { rs: u8, rt: u8 },
    /// `add rd, rs, rt`: sum, or Overflow where it leaves 32 signed bits.
    Add { rd: u8, rs: u8, rt: u8 },
    /// `addu rd, rs, rt`: sum that wraps.
    Addu { rd: u8, rs: u8, rt: u8 },
    /// `sub rd, rs, rt`: difference, or Overflow where it leaves 32 signed bits.
    Sub { rd: u8, rs: u8, rt: u8 },
    /// `subu rd, rs, rt`: difference that wraps.
    Subu { rd: u8, rs: u8, rt: u8 },
    /// `and rd, rs, rt`: bitwise and.
    And { rd: u8, rs: u8, rt: u8 },
    /// `or rd, rs, rt`: bitwise or.
    Or { rd: u8, rs: u8, rt: u8 },
    /// `xor rd, rs, rt`: bitwise exclusive or.
    Xor { rd: u8, rs: u8, rt: u8 },
    /// `nor rd, rs, rt`: bitwise or, each bit then turned.
    Nor { rd: u8, rs: u8, rt: u8 },
    /// `slt rd, rs, rt`: 1 where `rs` is below `rt` as signed numbers, else 0.
    Slt { rd: u8, rs: u8, rt: u8 },
    /// `sltu rd, rs, rt`: 1 where `rs` is below `rt` as unsigned numbers, else 0.
    Sltu { rd: u8, rs: u8, rt: u8 },
    /// `bltz rs, target`: branch where the register is negative.
    Bltz { rs: u8, imm: u16 },
    /// `bgez rs, target`: branch where the register isn't negative.
    Bgez { rs: u8, imm: u16 },
    /// `bltzal rs, target`: branch where the register is negative, with the link in $31.
    Bltzal { rs: u8, imm: u16 },
    /// `bgezal rs, target`: branch where the register isn't negative, with the link in $31.
    Bgezal { rs: u8, imm: u16 },
    /// `j target`: jump within the 256 megabytes of the next instruction.
    J { index: u32 },
    /// `jal target`: the same, with the link in $31.
    Jal { index: u32 },
    /// `beq rs, rt, target`: branch where the registers are equal.
    Beq { rs: u8, rt: u8, imm: u16 },
    /// `bne rs, rt, target`: branch where the registers aren't equal.
    Bne { rs: u8, rt: u8, imm: u16 },
    /// `blez rs, target`: branch where the register is at most zero.
    Blez { rs: u8, imm: u16 },
    /// `bgtz rs, target`: branch where the register is above zero.
    Bgtz { rs: u8, imm: u16 },
    /// `addi rt, rs, imm`: sum with a sign-extended immediate, or Overflow.
    Addi { rt: u8, rs: u8, imm: u16 },
    /// `addiu rt, rs, imm`: sum with a sign-extended immediate that wraps.
    Addiu { rt: u8, rs: u8, imm: u16 },
    /// `slti rt, rs, imm`: 1 where `rs` is below the sign-extended immediate as signed numbers, else 0.
    Slti { rt: u8, rs: u8, imm: u16 },
    /// `sltiu rt, rs, imm`: 1 where `rs` is below the sign-extended immediate as unsigned numbers, else 0.
    Sltiu { rt: u8, rs: u8, imm: u16 },
    /// `andi rt, rs, imm`: bitwise and with a zero-extended immediate.
    Andi { rt: u8, rs: u8, imm: u16 },
    /// `ori rt, rs, imm`: bitwise or with a zero-extended immediate.
    Ori { rt: u8, rs: u8, imm: u16 },
    /// `xori rt, rs, imm`: bitwise exclusive or with a zero-extended immediate.
    Xori { rt: u8, rs: u8, imm: u16 },
    /// `lui rt, imm`: the immediate into the high half.
    Lui { rt: u8, imm: u16 },
    /// `lb rt, imm(rs)`: load a byte, sign-extended.
    Lb { rt: u8, imm: u16, rs: u8 },
    /// `lh rt, imm(rs)`: load a half-word, sign-extended.
    Lh { rt: u8, imm: u16, rs: u8 },
    /// `lwl rt, imm(rs)`: load the high bytes of a word that isn't aligned.
    Lwl { rt: u8, imm: u16, rs: u8 },
    /// `lw rt, imm(rs)`: load a word.
    Lw { rt: u8, imm: u16, rs: u8 },
    /// `lbu rt, imm(rs)`: load a byte, zero-extended.
    Lbu { rt: u8, imm: u16, rs: u8 },
    /// `lhu rt, imm(rs)`: load a half-word, zero-extended.
    Lhu { rt: u8, imm: u16, rs: u8 },
    /// `lwr rt, imm(rs)`: load the low bytes of a word that isn't aligned.
    Lwr { rt: u8, imm: u16, rs: u8 },
    /// `sb rt, imm(rs)`: store a byte.
    Sb { rt: u8, imm: u16, rs: u8 },
    /// `sh rt, imm(rs)`: store a half-word.
    Sh { rt: u8, imm: u16, rs: u8 },
    /// `swl rt, imm(rs)`: store the high bytes of a word that isn't aligned.
    Swl { rt: u8, imm: u16, rs: u8 },
    /// `sw rt, imm(rs)`: store a word.
    Sw { rt: u8, imm: u16, rs: u8 },
    /// `swr rt, imm(rs)`: store the low bytes of a word that isn't aligned.
    Swr { rt: u8, imm: u16, rs: u8 },
    /// `xlwn rt, imm(rs)`: load a word of RAM into the compartment.
    Xlwn { rt: u8, imm: u16, rs: u8 },
    /// `xswn rt, imm(rs)`: store a word out of the compartment into RAM.
    Xswn { rt: u8, imm: u16, rs: u8 },
    /// `xmvtn rs`: give a register out of the compartment. The register is 1 to 31.
    Xmvtn { rs: u8 },
    /// `xmvfn rd, rs`: take a register from outside into one's own. Both are 1 to 31.
    Xmvfn { rd: u8, rs: u8 },
    /// `xexit`: end for good.
    Xexit,
    /// `xhand rs`: set the handler of signals, or clear it by 0.
    Xhand { rs: u8 },
    /// `xsigret`: go on where a signal came.
    Xsigret,
    /// `xinstall rs, rt, rd`: put the guest of the envelope `rt` into slot `rs`, with its tree in the area `rd`.
    Xinstall { rs: u8, rt: u8, rd: u8 },
    /// `xenter rs`: start the guest of slot `rs`.
    Xenter { rs: u8 },
    /// `xresume rs, rt`: go on with the guest of slot `rs`, with signal `rt`, or 0 for none.
    Xresume { rs: u8, rt: u8 },
    /// `xsave rs, rt, rd`: seal register `rt` of slot `rs` into RAM at `rd`.
    Xsave { rs: u8, rt: u8, rd: u8 },
    /// `xrestore rs, rt, rd`: put register `rt` of slot `rs` back from RAM at `rd`.
    Xrestore { rs: u8, rt: u8, rd: u8 },
    /// `xmap rs, rt, rd`: give page `rt` of slot `rs` the frame `rd`.
    Xmap { rs: u8, rt: u8, rd: u8 },
    /// `xunmap rs, rt`: take the frame of page `rt` of slot `rs` away.
    Xunmap { rs: u8, rt: u8 },
    /// `xkill rs`: free slot `rs`.
    Xkill { rs: u8 },
    /// `xout rs`: write the low 8 bits to the console.
    Xout { rs: u8 },
    /// `xhalt`: end the run.
    Xhalt,
    /// `xstat rd`: ask for the status of the last operation or kernel write.
    Xstat { rd: u8 },
    /// `xcause rd`: ask why a guest left last.
    Xcause { rd: u8 },
    /// `xarg rd`: ask for the number of that cause.
    Xarg { rd: u8 },
    /// `xwho rd`: ask for the slot that left last.
    Xwho { rd: u8 },
}
