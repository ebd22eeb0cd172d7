use crate::{ByteList, List, NumberList};

/// When the interrupt line is set. Guest events are counted from 1, apart from all others.
#[derive(Drop)]
pub enum Interrupts {
    /// At no guest event.
    Never,
    /// At each guest event whose number is a multiple of this one, which is at least 1.
    Every(u64),
    /// At the guest events of these numbers, which ascend strictly from at least 1.
    At(NumberList),
}

/// One write of the bus into RAM.
#[derive(Drop)]
pub struct Poke {
    /// The number of its event, counted from 1 among all events of the run.
    pub event: u64,
    /// The address of its first byte.
    pub address: u32,
    /// Its bytes: 1 to 8,192.
    pub bytes: ByteList,
}

/// A growing list of writes of the bus.
pub type PokeList = List<Poke>;

/// What comes to the machine from outside during a run.
#[derive(Drop)]
pub struct Schedule {
    /// The interrupt line.
    pub interrupts: Interrupts,
    /// The writes of the bus. The numbers of their events ascend strictly.
    pub pokes: PokeList,
}
