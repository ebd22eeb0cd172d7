ghost use Rattle.std.specs.Prelude.{◌≡◌, ◌+◌, ◌*◌, ◌≤◌, IfOk, SomeIff, length};
ghost use Rattle.xom_image.specs.Fields.{IsFormat, IsWholeFile, common_prefix_size as agreed_of, fields_at, number_in_file as number_of};

/// The size of private memory in bytes, which no entry reaches.
const PRIVATE: u32 = 1 << 20;

/// How many bytes the name of a format and its version have.
pub const HEAD: usize = 8;

/// A format of image files: the name and the version, an entry with a count behind it, and then
/// so many parts of one size. Places are in bytes from the front of the file.
pub struct Format {
    /// The name of the format and its version.
    pub head: [u8; HEAD],
    /// Where the entry stands. The count has the four bytes behind it.
    pub entry: usize,
    /// Where the parts begin.
    pub start: u32,
    /// How many bytes a part has.
    pub part: u8,
    /// How many parts there are at most.
    pub most: u32,
}

/// The entry and the count of a file that breaks no rule of this format, or the first bad place.
pub fn fields(format: &Format, file: &[u8]) -> Result<(u32, u32), u64>
    requires { IsFormat format.now }
    ensures value { result ≡ fields_at format.now file.now }
    ensures whole { IfOk result (λ _. IsWholeFile format.now file.now) }
{
    judged(format, file)
}

/// The entry and the count of a file, or its first bad place.
#[tactic(auto, unfolding(crate::specs::Fields::fields_at))]
fn judged(format: &Format, file: &[u8]) -> Result<(u32, u32), u64>
    requires { IsFormat format.now }
    ensures { result ≡ fields_at format.now file.now }
{
    let agreed = agreed(&format.head, file);
    if agreed < HEAD {
        return Err(agreed as u64);
    }
    let size = file.len() as u64;
    let entry = number_at(file, format.entry).ok_or(size)?;
    if entry % 4 != 0 || entry >= PRIVATE {
        return Err(format.entry as u64);
    }
    let count = number_at(file, format.entry + 4).ok_or(size)?;
    if count > format.most {
        return Err(format.entry as u64 + 4);
    }
    let end = size_of(format, count);
    if size != end {
        return Err(size.min(end));
    }
    Ok((entry, count))
}

/// How many bytes a file with so many parts has.
fn size_of(format: &Format, count: u32) -> u64
    ensures { result ≡ format.now.start + format.now.part * count }
{
    u64::from(format.start) + u64::from(format.part) * u64::from(count)
}

/// How many bytes two texts have in common from the front on.
#[tactic(auto, using(crate::proofs::Reading::agreed_within), unfolding(crate::specs::Fields::common_prefix_size))]
fn agreed(a: &[u8], b: &[u8]) -> usize
    ensures value { result ≡ agreed_of a.now b.now }
    ensures within { result ≤ length b.now }
{
    a.iter()
        .zip(b.iter())
        .take_while(|(x, y)| **x == **y)
        .count()
}

/// The number in the four bytes from this place on, if they are all there.
#[tactic(auto, unfolding(crate::specs::Fields::number_in_file))]
fn number_at(file: &[u8], place: usize) -> Option<u32>
    ensures { SomeIff result (place + 4 ≤ length file.now) (number_of file.now place) }
{
    let field = file.get(place..)?.first_chunk()?;
    Some(u32::from_be_bytes(*field))
}
