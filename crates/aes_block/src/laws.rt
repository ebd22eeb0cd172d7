ghost use Rattle.aes_block.specs.Laws.{BlocksAreBytes};

/// A law and no code: under a key of bytes a block of bytes comes out, whatever goes in.
#[tactic(auto, using(crate::proofs::Bytes::blocks_are_bytes))]
pub fn blocks_are_bytes()
    ensures { BlocksAreBytes }
{}
