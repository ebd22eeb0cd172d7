ghost use Rattle.std.specs.Prelude.{◌≡◌, IfOk};
ghost use Rattle.xom_script.specs.Fields.{name_of_word, write_bytes_of};

use std::alloc::Global;
use text_lines::hex_list;
use xom_base::{ByteList, NoMemory};
use xom_io::Name;

/// The bytes of one write: 1 to 8,192.
#[tactic(auto, unfolding(crate::specs::Fields::write_bytes_of))]
pub fn write_bytes(alloc: Global, word: &[u8]) -> Result<Option<ByteList>, NoMemory>
    ensures { IfOk result (λ found. found ≡ write_bytes_of word.now) }
{
    let Some(bytes) = hex_list(alloc, word, 8192)? else {
        return Ok(None);
    };
    if bytes.is_empty() {
        return Ok(None);
    }
    Ok(Some(bytes))
}

/// A file name: a word in UTF-8.
#[tactic(auto, unfolding(crate::specs::Fields::name_of_word))]
pub fn name(alloc: Global, word: &[u8]) -> Result<Option<Name>, NoMemory>
    ensures { IfOk result (λ found. found ≡ name_of_word word.now) }
{
    let Ok(text) = str::from_utf8(word) else {
        return Ok(None);
    };
    Ok(Some(Name::new(String::from_str(alloc, text)?)))
}
