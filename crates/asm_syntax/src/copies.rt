ghost use Rattle.std.specs.Prelude.{◌≡◌, [], ◌∷◌, ◌++◌, IfOk, OnOk};

use asm_source::{SourceName, Value};
use std::alloc::Global;
use xom_base::{ByteList, List, NoMemory};

/// The empty list, with room for so many items.
pub fn room<T>(alloc: Global, count: usize) -> Result<List<T>, NoMemory>
    ensures { IfOk result (λ list. list ≡ []) }
{
    Ok(List::from_vec(Vec::with_capacity(alloc, count)?))
}

/// Adds an item at the end of a list.
pub fn add<T: Drop>(list: &mut Vec<T>, item: T) -> Result<(), NoMemory>
    ensures { OnOk result (list.new.items ≡ list.old.items ++ item ∷ []) }
{
    Ok(list.push(item)?)
}

/// A list of these bytes.
pub fn copy_bytes(alloc: Global, bytes: &[u8]) -> Result<ByteList, NoMemory>
    ensures { IfOk result (λ copy. copy ≡ bytes.now) }
{
    Ok(ByteList::from_vec(Vec::from_slice(alloc, bytes)?))
}

/// The same value once more.
pub fn copy_value(alloc: Global, value: &Value) -> Result<Value, NoMemory>
    ensures { IfOk result (λ copy. copy ≡ value.now) }
{
    match value {
        Value::Number(number) => Ok(Value::Number(*number)),
        Value::Label(name) => Ok(Value::Label(SourceName::from_slice(alloc, name.as_slice())?)),
    }
}
