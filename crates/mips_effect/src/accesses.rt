ghost use Rattle.std.specs.Prelude.{◌≡◌, ◌<◌, ◌≤◌, ◌*◌, ◌%◌, ◌^◌};
ghost use Rattle.mips_effect.specs.Effects.{alignment_of, at_word, is_open, loads, stores, stores_left, stores_part, stores_right};

use crate::effects::Effect;
use crate::kinds::wishes;
use crate::{LoadKind, Mode, Wish};
use xom_base::OwnFault;

/// The bytes of private memory.
const PRIVATE_BYTES: u32 = 1 << 20;

/// A load, of an address that is aligned and, for a guest, private.
pub fn loads(
    mode: Mode,
    kind: LoadKind,
    reg: u8,
    address: u32,
    old: u32,
    following: u32,
) -> Result<Effect, OwnFault>
    ensures { result ≡ loads mode kind reg address old following }
{
    if !is_open(mode, size(kind), address) {
        return Err(OwnFault::Address);
    }
    let load = Wish::Load {
        reg,
        address,
        kind,
        old,
    };
    wishes(load, following)
}

/// A store of 1, 2 or 4 bytes, at an address that is aligned and, for a guest, private.
pub fn stores(
    mode: Mode,
    count: u8,
    address: u32,
    value: u32,
    following: u32,
) -> Result<Effect, OwnFault>
    requires { 0 < count }
    ensures { result ≡ stores mode count address value following }
{
    if !is_open(mode, count, address) {
        return Err(OwnFault::Address);
    }
    let store = Wish::Store {
        address,
        count,
        value,
    };
    wishes(store, following)
}

/// `swl`: a register's high bytes, from the address to the word's end.
pub fn stores_left(mode: Mode, address: u32, value: u32, following: u32) -> Result<Effect, OwnFault>
    ensures { result ≡ stores_left mode address value following }
{
    let place = (address % 4) as u8;
    let store = Wish::Store {
        address,
        count: 4 - place,
        value: value >> (8 * place),
    };
    stores_part(mode, address, store, following)
}

/// `swr`: a register's low bytes, from the word's start through the address.
pub fn stores_right(
    mode: Mode,
    address: u32,
    value: u32,
    following: u32,
) -> Result<Effect, OwnFault>
    ensures { result ≡ stores_right mode address value following }
{
    let place = (address % 4) as u8;
    let store = Wish::Store {
        address: address - address % 4,
        count: place + 1,
        value: low_bytes(place + 1, value),
    };
    stores_part(mode, address, store, following)
}

/// The low 1 to 4 bytes of a value.
pub fn low_bytes(count: u8, value: u32) -> u32
    requires some { 1 ≤ count }
    requires few { count ≤ 4 }
    ensures { result ≡ value % 2 ^ (8 * count) }
{
    match count {
        1 => value & 0xff,
        2 => value & 0xffff,
        3 => value & 0xff_ffff,
        _ => value,
    }
}

/// A store within the word of an address that is, for a guest, private.
fn stores_part(mode: Mode, address: u32, store: Wish, following: u32) -> Result<Effect, OwnFault>
    ensures { result ≡ stores_part mode address store following }
{
    if is_open(mode, 1, address) {
        wishes(store, following)
    } else {
        Err(OwnFault::Address)
    }
}

/// A load of a word of RAM.
pub fn null_loads(reg: u8, address: u32, following: u32) -> Result<Effect, OwnFault>
    ensures { result ≡ at_word address (Wish.NullLoad reg address) following }
{
    if address % 4 != 0 {
        return Err(OwnFault::Address);
    }
    wishes(Wish::NullLoad { reg, address }, following)
}

/// A store of a word of RAM.
pub fn null_stores(address: u32, value: u32, following: u32) -> Result<Effect, OwnFault>
    ensures { result ≡ at_word address (Wish.NullStore address value) following }
{
    if address % 4 != 0 {
        return Err(OwnFault::Address);
    }
    wishes(Wish::NullStore { address, value }, following)
}

/// Whether an access is aligned to so many bytes and, for a guest, private.
fn is_open(mode: Mode, size: u8, address: u32) -> bool
    requires { 0 < size }
    ensures { result ≡ is_open mode size address }
{
    let aligned = address % u32::from(size) == 0;
    match mode {
        Mode::Guest => aligned && address < PRIVATE_BYTES,
        Mode::Null => aligned,
    }
}

/// What an address of this kind is a multiple of.
fn size(kind: LoadKind) -> u8
    ensures value { result ≡ alignment_of kind }
    ensures some { 0 < result }
{
    match kind {
        LoadKind::Byte | LoadKind::ByteU | LoadKind::Left | LoadKind::Right => 1,
        LoadKind::Half | LoadKind::HalfU => 2,
        LoadKind::Word => 4,
    }
}
