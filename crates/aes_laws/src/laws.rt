ghost use Rattle.aes_laws.specs.FieldLaws.{InversesAreAlone, InversesAreInverse};

/// A law and no code: in the field of FIPS 197, section 4, each byte but {00} times its inverse, as
/// the S-box takes it, is {01}, and no other byte's product with it is.
#[tactic(auto, using(crate::proofs::Inverses::inverses_are_inverse, crate::proofs::Inverses::inverses_are_alone))]
pub fn inverses_are_inverse()
    ensures inverse { InversesAreInverse }
    ensures alone { InversesAreAlone }
{}
