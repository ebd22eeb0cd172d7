/// A whole number as it is written: a sign and a magnitude. `-0` is zero too.
#[derive(Clone, Copy, Debug, PartialEq, Eq)]
pub struct Integer {
    /// Whether a `-` stands before it.
    pub negative: bool,
    /// The number behind the sign.
    pub magnitude: u64,
}
