ghost use Rattle.image_sealer.specs.Laws.{OwnersEnvelopesOpen, OwnersLinesOpen, TagsAreOfTheSealing};
ghost use Rattle.image_sealer.specs.MemberLaws.{MembersAreNoRunsOwn, MembersAreOfTheImage};
ghost use Rattle.image_sealer.specs.Membership.{MembersAreToldByTheirNames};

/// Laws and no code: what an owner sealed for a machine opens there to what the owner put in, and
/// the tags in it are of the messages of the owner's sealing.
#[tactic(auto, using(crate::proofs::Opening::envelopes_open, crate::proofs::Opening::lines_open, crate::proofs::Opening::tags_are_of_the_sealing))]
pub fn sealed_images_open()
    ensures envelopes { OwnersEnvelopesOpen }
    ensures lines { OwnersLinesOpen }
    ensures tags { TagsAreOfTheSealing }
{}

/// Laws and no code: what an owner takes a tag of is the message of the envelope under the machine's
/// key, or that of one line of the image, with just that line's ciphertext, under the image key. So it is
/// never the message of a run line or of a register, which machines seal by themselves. Whether a key and
/// a message are of it is told by sealing again the one line that the message names.
#[tactic(auto, using(crate::proofs::Members::members_are_of_the_image, crate::proofs::Members::members_are_no_runs_own, crate::proofs::Membership::members_are_told_by_their_names))]
pub fn sealings_are_of_the_image()
    ensures members { MembersAreOfTheImage }
    ensures apart { MembersAreNoRunsOwn }
    ensures by_name { MembersAreToldByTheirNames }
{}
