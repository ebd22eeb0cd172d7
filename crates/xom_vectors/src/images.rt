//! Sealed images and their files. Keys are 32 bytes, ids 16.
//!
//! - `seal_image MACHINE KEY ID ENTRY BYTES = FILE`: the file is read again; where that gives another
//!   image, the result ends with `read otherwise`.
//! - `open_image OPENER MACHINE KEY ID ENTRY BYTES = LINES CONTENTS`: sealed for one machine and opened
//!   by one, gives the number of lines, and what the envelope says: `ID ENTRY LINES KEY`, or `refused`.
//! - `sealed_file FILE = ENVELOPE CIPHERTEXT TAG ..`: the file is read, and written again; where that
//!   gives another file, the result ends with `written otherwise`.
//! - `sealed_file_fault FILE = none`, or the fault, as `byte 3: bad`.

ghost use Rattle.std.specs.Prelude.{◌≤◌};

use crate::args::Args;
use crate::fault::{Answer, Fault};
use crate::line::{Line, word};
use crate::sealing::push_contents;
use image_sealer::seal;
use std::alloc::Global;
use xom_base::{ByteList, PlainImage};
use xom_image::{ImageFault, read_sealed, write_sealed};
use xom_owners::Owner;
use xom_seal::{SealedImage, unwrap};

/// The result, or none where the kind isn't of this module.
pub fn answer(kind: &str, args: &Args) -> Option<Answer> {
    match (kind, args.len()) {
        ("seal_image", 5) => Some(seal_image(args)),
        ("open_image", 6) => Some(open_image(args)),
        ("sealed_file", 1) => Some(sealed_file(args)),
        ("sealed_file_fault", 1) => Some(sealed_file_fault(args)),
        _ => None,
    }
}

/// The image of these bytes, where they may be one.
pub fn image(alloc: Global, entry: u32, bytes: &[u8]) -> Result<PlainImage, Fault> {
    if entry % 4 != 0 || entry >= 1 << 20 || bytes.len() > 1 << 20 {
        return Err(Fault::Unreadable);
    }
    let bytes = ByteList::from_vec(Vec::from_slice(alloc, bytes)?);
    Ok(PlainImage { entry, bytes })
}

fn file(alloc: Global, bytes: &[u8]) -> Result<ByteList, Fault> {
    Ok(ByteList::from_vec(Vec::from_slice(alloc, bytes)?))
}

// The image that is sealed by the words from this place on: MACHINE KEY ID ENTRY BYTES.
fn sealed(args: &Args, place: usize) -> Result<SealedImage, Fault>
    requires { place ≤ 1 }
{
    let machine = args.key(place)?;
    let key = args.key(place + 1)?;
    let id = args.id(place + 2)?;
    let entry = args.value(place + 3)?;
    let plain = image(args.alloc(), entry, args.bytes(place + 4)?)?;
    Ok(seal(args.alloc(), &Owner { plain, key, id }, &machine)?)
}

fn seal_image(args: &Args) -> Answer {
    let image = sealed(args, 0)?;
    let file = write_sealed(args.alloc(), &image)?;
    let read = read_sealed(args.alloc(), &file)?;
    let mut line = Line::new(args.alloc());
    line.hex(file.as_slice());
    if !is_same(&read, &image) {
        line.word("read otherwise");
    }
    line.end()
}

fn is_same(a: &SealedImage, b: &SealedImage) -> bool {
    a.envelope.as_slice() == b.envelope.as_slice() && a.lines.as_slice() == b.lines.as_slice()
}

fn open_image(args: &Args) -> Answer {
    let opener = args.key(0)?;
    let image = sealed(args, 1)?;
    let mut line = Line::new(args.alloc());
    line.number(image.lines.len() as u64);
    push_contents(&mut line, unwrap(&opener, &image.envelope));
    line.end()
}

fn sealed_file(args: &Args) -> Answer {
    let file = file(args.alloc(), args.bytes(0)?)?;
    let image = read_sealed(args.alloc(), &file)?;
    image_text(args.alloc(), &image, &file)
}

// The text of an image that was read from this file.
fn image_text(alloc: Global, image: &SealedImage, file: &ByteList) -> Answer {
    let again = write_sealed(alloc, image)?;
    let mut line = Line::new(alloc);
    line.hex(&image.envelope);
    for sealed in image.lines.as_slice() {
        line.hex(&sealed.ct);
        line.hex(&sealed.tag);
    }
    if again.as_slice() != file.as_slice() {
        line.word("written otherwise");
    }
    line.end()
}

fn sealed_file_fault(args: &Args) -> Answer {
    let file = file(args.alloc(), args.bytes(0)?)?;
    match read_sealed(args.alloc(), &file) {
        Ok(_) => word(args.alloc(), "none"),
        Err(ImageFault::NoMemory) => Err(Fault::NoMemory),
        Err(fault) => Ok(format!(in args.alloc(); "{fault}")?),
    }
}
