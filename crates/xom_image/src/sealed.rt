ghost use Rattle.std.specs.Prelude.{◌≡◌, ◌+◌, ◌*◌, ◌≤◌, IfOk, length, OnOk, ◌++◌};
ghost use Rattle.std.specs.List.{flat_map};
ghost use Rattle.xom_image.specs.Fields.{AnswersFile};
ghost use Rattle.xom_image.specs.SealedFiles.{AnswersSealed, IsFirstBadSealed, IsSealedFile, line_bytes, lines_at as lines_of, sealed_file, sealed_image_at, sealed_line_at as line_of};

use crate::ImageFault;
use crate::fields::{Format, HEAD, fields};
use std::alloc::{AllocError, Global};
use xom_base::{ByteList, NoMemory};
use xom_seal::{SealedImage, SealedLine, SealedLineList, part};

/// How many bytes stand before the lines.
const START: usize = 96;

/// How many bytes a line has: 32 of ciphertext, then 32 of tag.
const LINE: usize = 64;

/// A part is a line, and there are at most as many as private memory has. The entry and the number
/// of lines stand in the envelope, behind the id.
const SEALED: Format = Format {
    head: *b"XOMS\0\0\0\x01",
    entry: 24,
    start: 96,
    part: 64,
    most: 1 << 15,
};

/// The image of a sealed image file. No tag is looked at. The lines are copied once.
pub fn read_sealed(alloc: Global, bytes: &ByteList) -> Result<SealedImage, ImageFault>
    // What is read is in the format, and what is in the format is read, unless memory ran out. The place
    // that is answered is just the first bad one.
    ensures file { AnswersFile (IsSealedFile bytes.now) (IsFirstBadSealed bytes.now) result }
    ensures value { AnswersSealed (sealed_image_at bytes.now) result }
{
    image_of(alloc, bytes.as_slice())
}

/// The image of the bytes of a sealed image file.
#[tactic(auto, unfolding(crate::specs::SealedFiles::sealed_image_at))]
fn image_of(alloc: Global, file: &[u8]) -> Result<SealedImage, ImageFault>
    ensures found { IfOk result (IsSealedFile file.now) }
    ensures value { AnswersSealed (sealed_image_at file.now) result }
{
    let (_entry, count) = fields(&SEALED, file).map_err(ImageFault::Bad)?;
    let lines = lines_at(alloc, file, count)?;
    Ok(SealedImage {
        envelope: part(file, HEAD),
        lines: SealedLineList::from_vec(lines),
    })
}

/// The first lines of a file.
#[tactic(auto, using(crate::proofs::LineBytes::lines_at_more))]
fn lines_at(alloc: Global, file: &[u8], count: u32) -> Result<Vec<SealedLine>, AllocError>
    requires { START + LINE * count ≤ length file.now }
    ensures { IfOk result (λ lines. lines.items ≡ lines_of file.now count) }
{
    let count = count as usize;
    let mut lines = Vec::with_capacity(alloc, count)?;
    for i in 0..count {
        lines.push(line_at(file, START + LINE * i))?;
    }
    Ok(lines)
}

/// The line whose bytes begin here.
fn line_at(file: &[u8], place: usize) -> SealedLine
    requires { place + LINE ≤ length file.now }
    ensures { result ≡ line_of file.now place }
{
    SealedLine {
        ct: part(file, place),
        tag: part(file, place + 32),
    }
}

/// The file of a sealed image. The lines are copied once.
#[tactic(auto, unfolding(crate::specs::SealedFiles::sealed_file))]
pub fn write_sealed(alloc: Global, image: &SealedImage) -> Result<ByteList, NoMemory>
    ensures { IfOk result (λ file. file ≡ sealed_file image.now.envelope image.now.lines) }
{
    let lines = image.lines.as_slice();
    let mut file = Vec::with_capacity(alloc, START + LINE * lines.len())?;
    file.extend_from_slice(&SEALED.head)?;
    file.extend_from_slice(&image.envelope)?;
    write_lines(&mut file, lines)?;
    Ok(ByteList::from_vec(file))
}

/// Puts the bytes of these lines behind a text.
fn write_lines(file: &mut Vec<u8>, lines: &[SealedLine]) -> Result<(), AllocError>
    ensures { OnOk result (file.new.items ≡ file.old.items ++ flat_map line_bytes lines.now) }
{
    for line in lines {
        file.extend_from_slice(&line.ct)?;
        file.extend_from_slice(&line.tag)?;
    }
    Ok(())
}
