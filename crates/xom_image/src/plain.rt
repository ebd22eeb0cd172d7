ghost use Rattle.std.specs.Prelude.{◌≡◌, IfOk};
ghost use Rattle.xom_image.specs.Fields.{AnswersFile};
ghost use Rattle.xom_image.specs.PlainFiles.{ImageAnswers, IsLeastBadOffset, IsPlainFile, plain_file, plain_image_at};

use crate::ImageFault;
use crate::fields::{Format, fields};
use std::alloc::Global;
use xom_base::{ByteList, NoMemory, PlainImage};

/// How many bytes stand before those of the image.
const START: usize = 16;

/// A part is a byte, and there are at most as many as private memory has.
const PLAIN: Format = Format {
    head: *b"XOMP\0\0\0\x01",
    entry: 8,
    start: 16,
    part: 1,
    most: 1 << 20,
};

/// The image of a plain image file. The bytes are copied once.
pub fn read_plain(alloc: Global, bytes: &ByteList) -> Result<PlainImage, ImageFault>
    // What is read is in the format, and what is in the format is read, unless memory ran out. The place
    // that is answered is just the first bad one.
    ensures file { AnswersFile (IsPlainFile bytes.now) (IsLeastBadOffset bytes.now) result }
    ensures value { ImageAnswers (plain_image_at bytes.now) result }
{
    image_of(alloc, bytes.as_slice())
}

/// The image of the bytes of a plain image file.
#[tactic(auto, unfolding(crate::specs::PlainFiles::plain_image_at))]
fn image_of(alloc: Global, file: &[u8]) -> Result<PlainImage, ImageFault>
    ensures found { IfOk result (IsPlainFile file.now) }
    ensures value { ImageAnswers (plain_image_at file.now) result }
{
    let (entry, _length) = fields(&PLAIN, file).map_err(ImageFault::Bad)?;
    let bytes = Vec::from_slice(alloc, &file[START..])?;
    Ok(PlainImage {
        entry,
        bytes: ByteList::from_vec(bytes),
    })
}

/// The file of a plain image. The bytes are copied once.
#[tactic(auto, unfolding(crate::specs::PlainFiles::plain_file))]
pub fn write_plain(alloc: Global, image: &PlainImage) -> Result<ByteList, NoMemory>
    ensures { IfOk result (λ file. file ≡ plain_file image.now.entry image.now.bytes) }
{
    let bytes = image.bytes.as_slice();
    let mut file = Vec::with_capacity(alloc, START + bytes.len())?;
    file.extend_from_slice(&PLAIN.head)?;
    file.extend_from_slice(&image.entry.to_be_bytes())?;
    file.extend_from_slice(&(bytes.len() as u32).to_be_bytes())?;
    file.extend_from_slice(bytes)?;
    Ok(ByteList::from_vec(file))
}
