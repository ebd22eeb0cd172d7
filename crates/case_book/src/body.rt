//! What the lines below an entry's head say: text, bytes, or bytes many times.

use std::alloc::Global;
use xom_base::NoMemory;

/// Whether a line belongs to a body.
pub fn is_body(line: &str) -> bool {
    line.starts_with('|') || line.starts_with('+') || line.starts_with('=') || line.starts_with('*')
}

/// Appends what a line of a body says, and answers whether it says something.
pub fn add_line(alloc: Global, body: &mut Vec<u8>, line: &str) -> Result<bool, NoMemory> {
    let (sign, rest) = line.split_once(' ').unwrap_or((line, ""));
    match sign {
        "|" => {
            body.extend_from_slice(rest.as_bytes())?;
            body.push(b'\n')?;
            Ok(true)
        }
        "+" => {
            body.extend_from_slice(rest.as_bytes())?;
            Ok(true)
        }
        "=" => add_times(alloc, body, 1, rest),
        "*" => add_counted(alloc, body, rest),
        _ => Ok(false),
    }
}

// `COUNT HEX HEX`.
fn add_counted(alloc: Global, body: &mut Vec<u8>, text: &str) -> Result<bool, NoMemory> {
    let Some((count, digits)) = text.split_once(' ') else {
        return Ok(false);
    };
    match count.parse::<u32>() {
        Ok(count) => add_times(alloc, body, count, digits),
        Err(_) => Ok(false),
    }
}

// Appends the bytes of these digits so many times.
fn add_times(
    alloc: Global,
    body: &mut Vec<u8>,
    count: u32,
    digits: &str,
) -> Result<bool, NoMemory> {
    let mut bytes = Vec::new(alloc);
    if !add_bytes(alloc, &mut bytes, digits)? {
        return Ok(false);
    }
    for _ in 0..count {
        body.extend_from_slice(bytes.as_slice())?;
    }
    Ok(true)
}

// `HEX HEX`.
fn add_bytes(alloc: Global, bytes: &mut Vec<u8>, digits: &str) -> Result<bool, NoMemory> {
    for group in digits.split_whitespace() {
        let Ok(read) = hex::decode(alloc, group) else {
            return Ok(false);
        };
        bytes.extend_from_slice(read.as_slice())?;
    }
    Ok(true)
}

/// The plain image file of these instruction words, with entry 0.
pub fn image_file(alloc: Global, words: &[u8]) -> Result<Vec<u8>, NoMemory> {
    let mut file = b"XOMP\0\0\0\x01\0\0\0\0".to_vec(alloc)?;
    let length = u32::try_from(words.len()).unwrap_or(u32::MAX);
    file.extend_from_slice(&length.to_be_bytes())?;
    file.extend_from_slice(words)?;
    Ok(file)
}
