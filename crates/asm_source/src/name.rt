ghost use Rattle.std.specs.Prelude.{◌≡◌, ◌≤◌, IfOk, length};
ghost use Rattle.asm_source.specs.Names.{IsShortEnough, bytes_of_name};

use std::alloc::Global;
use std::marker::Model;
use xom_base::{ByteList, NoMemory};

/// The size of the longest name that takes no memory of its own.
const SHORT: usize = 14;

/// A name in a source: a label or a mnemonic. Contracts see it as its bytes. A name of at most 14
/// bytes takes no memory of its own.
#[derive(Drop)]
pub struct SourceName {
    bytes: NameBytes,
}

/// Where the bytes of a name stand.
#[derive(Drop)]
enum NameBytes {
    /// So many of these.
    Short(u8, [u8; 14]),
    /// In memory of their own.
    Long(Box<ByteList>),
}

impl Model for SourceName {
    ghost use Rattle.std.specs.Prelude.{ℕ, List};
    ghost use Rattle.asm_source.specs.Names.{IsShortEnough, bytes_of_name};

    ghost Value = { List ℕ };

    ghost view = { λ name. bytes_of_name name.bytes };

    ghost invariant = { λ name. IsShortEnough name.bytes };
}

impl SourceName {
    /// The name of these bytes. It costs time linear in their number.
    pub fn from_slice(alloc: Global, bytes: &[u8]) -> Result<SourceName, NoMemory>
        ensures { IfOk result (λ name. name ≡ bytes.now) }
    {
        let bytes = if bytes.len() <= SHORT {
            short(bytes)
        } else {
            NameBytes::Long(Box::new(alloc, ByteList::from_slice(alloc, bytes)?)?)
        };
        Ok(SourceName { bytes })
    }

    /// Its bytes.
    pub fn as_slice(&self) -> &[u8]
        ensures { result.now ≡ self.now }
    {
        match &self.bytes {
            NameBytes::Short(size, bytes) => &bytes[..*size as usize],
            NameBytes::Long(list) => list.as_slice(),
        }
    }
}

/// A name without memory of its own.
fn short(name: &[u8]) -> NameBytes
    requires { length name.now ≤ 14 }
    ensures bytes { bytes_of_name result ≡ name.now }
    ensures room { IsShortEnough result }
{
    let mut bytes = [0; SHORT];
    bytes[..name.len()].copy_from_slice(name);
    NameBytes::Short(name.len() as u8, bytes)
}
