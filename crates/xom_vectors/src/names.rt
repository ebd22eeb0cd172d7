//! Bytes that have a name, and the bytes that a word stands for.

use hex::FromHexError;
use std::alloc::Global;
use text_lines::number_below;
use xom_base::NoMemory;

/// Above the longest file of the libraries, a sealed image of 2 megabytes.
const LIMIT: u64 = 1 << 22;

#[derive(Drop)]
struct Named {
    name: String,
    bytes: Vec<u8>,
}

/// The names of a file, with their bytes.
#[derive(Drop)]
pub struct Names {
    alloc: Global,
    items: Vec<Named>,
}

impl Names {
    /// No name.
    pub fn new(alloc: Global) -> Names {
        Names {
            alloc,
            items: Vec::new(alloc),
        }
    }

    /// Puts bytes behind those of this name.
    pub fn add(&mut self, name: &str, bytes: &[u8]) -> Result<(), NoMemory> {
        let name = String::from_str(self.alloc, name)?;
        let bytes = Vec::from_slice(self.alloc, bytes)?;
        Ok(self.items.push(Named { name, bytes })?)
    }

    fn bytes(&self, name: &str) -> Result<Option<Vec<u8>>, NoMemory> {
        let mut bytes = Vec::new(self.alloc);
        let mut is_known = false;
        for named in &self.items {
            if named.name.as_str() == name {
                bytes.extend_from_slice(named.bytes.as_slice())?;
                is_known = true;
            }
        }
        Ok(if is_known { Some(bytes) } else { None })
    }

    /// The bytes that a word without bars stands for, if it stands for bytes.
    pub fn bytes_of(&self, word: &str) -> Result<Option<Vec<u8>>, NoMemory> {
        let (base, changes) = word.split_once('/').unwrap_or((word, ""));
        let Some(mut bytes) = self.unchanged(base)? else {
            return Ok(None);
        };
        if changes.is_empty() {
            return Ok(Some(bytes));
        }
        for change in changes.split('/') {
            if change_bytes(&mut bytes, change).is_none() {
                return Ok(None);
            }
        }
        Ok(Some(bytes))
    }

    fn unchanged(&self, base: &str) -> Result<Option<Vec<u8>>, NoMemory> {
        if let Some(name) = base.strip_prefix('@') {
            return self.bytes(name);
        }
        match base.split_once('*') {
            None => decoded(self.alloc, base),
            Some((digits, count)) => repeated(self.alloc, digits, count),
        }
    }
}

fn decoded(alloc: Global, digits: &str) -> Result<Option<Vec<u8>>, NoMemory> {
    match hex::decode(alloc, digits) {
        Ok(bytes) => Ok(Some(bytes)),
        Err(FromHexError::OutOfMemory) => Err(NoMemory),
        Err(_) => Ok(None),
    }
}

fn repeated(alloc: Global, digits: &str, count: &str) -> Result<Option<Vec<u8>>, NoMemory> {
    let Some(count) = number_below(count.as_bytes(), LIMIT) else {
        return Ok(None);
    };
    let Some(once) = decoded(alloc, digits)? else {
        return Ok(None);
    };
    let mut bytes = Vec::new(alloc);
    for _ in 0..count {
        bytes.extend_from_slice(once.as_slice())?;
    }
    Ok(Some(bytes))
}

// Makes a change, `..N`, `N=HH` or `N^HH`, if it is one.
fn change_bytes(bytes: &mut Vec<u8>, change: &str) -> Option<()> {
    if let Some(length) = change.strip_prefix("..") {
        bytes.truncate(number_below(length.as_bytes(), LIMIT)? as usize);
        return Some(());
    }
    match change.split_once('^') {
        Some((place, flips)) => *byte_at(bytes, place)? ^= hex_byte(flips)?,
        None => {
            let (place, byte) = change.split_once('=')?;
            *byte_at(bytes, place)? = hex_byte(byte)?;
        }
    }
    Some(())
}

fn byte_at<'a>(bytes: &'a mut Vec<u8>, place: &str) -> Option<&'a mut u8> {
    let place = number_below(place.as_bytes(), LIMIT)?;
    bytes.get_mut(place as usize)
}

/// The byte of two hexadecimal digits.
pub fn hex_byte(digits: &str) -> Option<u8> {
    let mut byte = [0];
    hex::decode_to_slice(digits, &mut byte).ok()?;
    Some(byte[0])
}
