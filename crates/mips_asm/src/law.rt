ghost use Rattle.mips_asm.specs.Laws.{BytesOfStatements, ImageOrFault, NotBoth, OneFault, OneImage};

/// A law and no code: each text has one outcome as a source, an image or a fault. Two images of it are
/// the same, entry and bytes; two faults of it are the same, kind and line; it never has both, and it
/// always has one.
pub fn sources_have_one_outcome()
    ensures image { OneImage }
    ensures fault { OneFault }
    ensures not_both { NotBoth }
    ensures image_or_fault { ImageOrFault }
{}

/// A law and no code: the bytes of a source's image are those of its statements. What a statement writes
/// stands at its place, zeros stand where none writes, and the last byte is the last that is written.
pub fn bytes_are_those_of_their_statements()
    ensures { BytesOfStatements }
{}
