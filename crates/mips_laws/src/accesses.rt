ghost use Rattle.mips_laws.specs.ReadBack.{BytesAreReadBack, HalvesAreReadBack, UnalignedWordsAreReadBack, WordsAreReadBack};
ghost use Rattle.mips_laws.specs.Unaligned.{HalvesLoadTheWord, HalvesStoreTheWord, LwLoadsTheWord, SwStoresTheWord, WordsAreBigEndian, WrittenWordsAreAlone};

/// Words are big-endian. `lwl` and `lwr` together load the word at any address of private memory,
/// and `swl` and `swr` together store its four bytes and no other, each pair in either order; at a
/// multiple of 4 `lw` and `sw` do the same alone.
pub fn unaligned_words_go_by_halves()
    ensures big_endian { WordsAreBigEndian }
    ensures alone { WrittenWordsAreAlone }
    ensures loads { HalvesLoadTheWord }
    ensures aligned_load { LwLoadsTheWord }
    ensures stores { HalvesStoreTheWord }
    ensures aligned_store { SwStoresTheWord }
{}

/// What `sw`, `sh` or `sb` stored is what a load at the same address gives: the number, its low half
/// or its low byte, with its sign or with zeros in front. What `swl` and `swr` stored at any address
/// is what `lwl` and `lwr` give there.
pub fn stored_values_are_read_back()
    ensures words { WordsAreReadBack }
    ensures halves { HalvesAreReadBack }
    ensures bytes { BytesAreReadBack }
    ensures unaligned { UnalignedWordsAreReadBack }
{}
