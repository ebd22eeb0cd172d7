ghost use Rattle.std.specs.Prelude.{◌≡◌, ◌↔◌, IsTrue};
ghost use Rattle.xom_base.specs.Steps.{same_step, same_writes, same_stored, same_received, same_released, same_end};

/// The cells that an instruction writes. HI is cell 32 and LO is cell 33.
#[derive(Clone, Copy)]
pub enum Writes {
    Nothing,
    /// One cell, 1 to 33.
    One { reg: u8, value: u32 },
    /// HI and LO together.
    Pair { hi: u32, lo: u32 },
}

/// The private bytes that an instruction stores.
#[derive(Clone, Copy)]
pub enum Stored {
    Nothing,
    /// From the address of the first byte, 1 to 4 bytes as one big-endian number.
    Bytes { address: u32, count: u8, value: u32 },
}

/// What comes to a guest from outside its compartment.
#[derive(Clone, Copy)]
pub enum Received {
    Nothing,
    /// The value of a register that the guest doesn't own.
    Cell(u32),
    /// A word of RAM.
    Null { address: u32, value: u32 },
    /// A signal, 1 to 63.
    Signal(u32),
}

/// What a guest gives out of its compartment.
#[derive(Clone, Copy)]
pub enum Released {
    Nothing,
    /// A register, 1 to 31, with its value.
    Cell { reg: u8, value: u32 },
    /// A word written to RAM.
    Null { address: u32, value: u32 },
}

/// How a step ends.
#[derive(Clone, Copy)]
pub enum StepEnd {
    /// The guest goes on.
    Goes,
    /// `syscall`, with its code below 2^20.
    Call(u32),
    /// `xexit`.
    Exit,
}

/// One retired instruction of a guest, or a delivered signal: all that it changed, and nothing
/// that the machine around it knows.
#[derive(Clone, Copy)]
pub struct Step {
    /// The address of the instruction.
    pub pc: u32,
    /// The address of the one after it.
    pub npc: u32,
    pub writes: Writes,
    pub stored: Stored,
    pub received: Received,
    pub released: Released,
    pub end: StepEnd,
}

/// Whether two steps are the same in every field.
#[tactic(auto, unfolding(crate::specs::Steps::same_step))]
pub fn step_eq(a: &Step, b: &Step) -> bool
    ensures same { IsTrue result ↔ (a.now ≡ b.now) }
    ensures value { result ≡ same_step a.now b.now }
{
    a.pc == b.pc
        && a.npc == b.npc
        && writes_eq(a.writes, b.writes)
        && stored_eq(a.stored, b.stored)
        && received_eq(a.received, b.received)
        && released_eq(a.released, b.released)
        && end_eq(a.end, b.end)
}

fn writes_eq(a: Writes, b: Writes) -> bool
    ensures same { IsTrue result ↔ (a ≡ b) }
    ensures value { result ≡ same_writes a b }
{
    match (a, b) {
        (Writes::Nothing, Writes::Nothing) => true,
        (Writes::One { reg: r, value: v }, Writes::One { reg: s, value: w }) => r == s && v == w,
        (Writes::Pair { hi: g, lo: k }, Writes::Pair { hi: h, lo: l }) => g == h && k == l,
        _ => false,
    }
}

fn stored_eq(a: Stored, b: Stored) -> bool
    ensures same { IsTrue result ↔ (a ≡ b) }
    ensures value { result ≡ same_stored a b }
{
    match (a, b) {
        (Stored::Nothing, Stored::Nothing) => true,
        (
            Stored::Bytes {
                address: x,
                count: m,
                value: v,
            },
            Stored::Bytes {
                address: y,
                count: n,
                value: w,
            },
        ) => x == y && m == n && v == w,
        _ => false,
    }
}

fn received_eq(a: Received, b: Received) -> bool
    ensures same { IsTrue result ↔ (a ≡ b) }
    ensures value { result ≡ same_received a b }
{
    match (a, b) {
        (Received::Nothing, Received::Nothing) => true,
        (Received::Cell(v), Received::Cell(w)) => v == w,
        (
            Received::Null {
                address: x,
                value: v,
            },
            Received::Null {
                address: y,
                value: w,
            },
        ) => { x == y && v == w }
        (Received::Signal(m), Received::Signal(n)) => m == n,
        _ => false,
    }
}

fn released_eq(a: Released, b: Released) -> bool
    ensures same { IsTrue result ↔ (a ≡ b) }
    ensures value { result ≡ same_released a b }
{
    match (a, b) {
        (Released::Nothing, Released::Nothing) => true,
        (Released::Cell { reg: r, value: v }, Released::Cell { reg: s, value: w }) => {
            r == s && v == w
        }
        (
            Released::Null {
                address: x,
                value: v,
            },
            Released::Null {
                address: y,
                value: w,
            },
        ) => { x == y && v == w }
        _ => false,
    }
}

fn end_eq(a: StepEnd, b: StepEnd) -> bool
    ensures same { IsTrue result ↔ (a ≡ b) }
    ensures value { result ≡ same_end a b }
{
    match (a, b) {
        (StepEnd::Goes, StepEnd::Goes) => true,
        (StepEnd::Call(m), StepEnd::Call(n)) => m == n,
        (StepEnd::Exit, StepEnd::Exit) => true,
        _ => false,
    }
}
