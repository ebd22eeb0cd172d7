ghost use Rattle.xom_seal.specs.NameLaws.{CounterKindsAreTold, EnvelopeCountersServeOne, HeadsKeepTheirKind, LineCountersServeOne, LineHeadsTell, MessageKindsAreTold, RegisterCountersServeOne, RegisterHeadsTell, RegistersAreTold, RunFieldsAreTold};
ghost use Rattle.xom_seal.specs.OpeningLaws.{EnvelopeMessagesTellContents, EnvelopesAreWrappings, RegistersAreSealings};
ghost use Rattle.xom_seal.specs.Laws.{CounterBlocksTell, CounterKindsDiffer, EnvelopeFieldsTell, EnvelopeMessagesTell, EnvelopesOpen, EnvelopesShow, KindsDiffer, LineCountersTell, LineMessagesTell, LinesAreSealings, LinesOpen, MessageLengths, RegisterCountersTell, RegisterMessagesTell, RegistersOpen, RunLinesAreTold, SealedLinesHaveTheirLength};

/// Laws and no code: equal messages are of one kind, one name and one ciphertext, and each kind has
/// one length.
#[tactic(auto, using(crate::proofs::MessageLaws::line_messages_tell, crate::proofs::MessageLaws::register_messages_tell, crate::proofs::MessageLaws::envelope_messages_tell, crate::proofs::MessageLaws::envelope_fields_tell, crate::proofs::MessageLaws::kinds_differ, crate::proofs::MessageLaws::message_lengths))]
pub fn messages_tell_their_names()
    ensures lines { LineMessagesTell }
    ensures registers { RegisterMessagesTell }
    ensures envelopes { EnvelopeMessagesTell }
    ensures envelope_fields { EnvelopeFieldsTell }
    ensures kinds { KindsDiffer }
    ensures lengths { MessageLengths }
{}

/// Laws and no code: a counter block tells its kind, its line or register, its version or epoch, and the
/// half of the line that it masks. So under the keys of one image or one install no counter block serves
/// two.
#[tactic(auto, using(crate::proofs::CounterLaws::counter_blocks_tell, crate::proofs::CounterLaws::line_counters_tell, crate::proofs::CounterLaws::register_counters_tell, crate::proofs::CounterLaws::counter_kinds_differ))]
pub fn counter_blocks_tell_their_names()
    ensures blocks { CounterBlocksTell }
    ensures lines { LineCountersTell }
    ensures registers { RegisterCountersTell }
    ensures kinds { CounterKindsDiffer }
{}

/// Laws and no code: what was sealed opens to what it was, and a line that opens was sealed so.
#[tactic(auto, using(crate::proofs::SealLaws::lines_open, crate::proofs::SealLaws::lines_are_sealings, crate::proofs::SealLaws::registers_open, crate::proofs::EnvelopeLaws::envelopes_open))]
pub fn sealings_open()
    ensures lines { LinesOpen }
    ensures line_sealings { LinesAreSealings }
    ensures registers { RegistersOpen }
    ensures envelopes { EnvelopesOpen }
{}

/// Laws and no code: the form of what is sealed, and what an envelope shows without any key.
pub fn sealings_have_their_form()
    ensures lines { SealedLinesHaveTheirLength }
    ensures envelopes { EnvelopesShow }
{}

/// A law and no code: whether a message is of a run line of an install, and of which version, is
/// read from its fields.
#[tactic(auto, using(crate::proofs::NamingLaws::run_lines_are_told))]
pub fn run_lines_are_told()
    ensures { RunLinesAreTold }
{}

/// Laws and no code: what opens was sealed so, registers and envelopes too. (Of lines it is the clause
/// `line_sealings` of `sealings_open`.)
#[tactic(auto, using(crate::proofs::OpeningLaws::registers_are_sealings, crate::proofs::OpeningLaws::envelopes_are_wrappings))]
pub fn openings_are_sealings()
    ensures registers { RegistersAreSealings }
    ensures envelopes { EnvelopesAreWrappings }
{}

/// A law and no code: equal messages of envelopes have equal contents, whatever their tags.
#[tactic(auto, using(crate::proofs::OpeningLaws::envelope_messages_tell_contents))]
pub fn envelope_messages_tell_contents()
    ensures { EnvelopeMessagesTellContents }
{}

/// Laws and no code: a message tells its kind by its first byte, and so do a counter block and all that a
/// message has before its ciphertext.
#[tactic(auto, using(crate::proofs::KindLaws::message_kinds_are_told, crate::proofs::KindLaws::counter_kinds_are_told, crate::proofs::KindLaws::heads_keep_their_kind))]
pub fn kinds_are_told()
    ensures messages { MessageKindsAreTold }
    ensures counters { CounterKindsAreTold }
    ensures heads { HeadsKeepTheirKind }
{}

/// Laws and no code: install, line, epoch and register are read from a message's fields, exactly on each
/// message of their kind, and no message of another kind names a run line or a register.
#[tactic(auto, using(crate::proofs::NamingLaws::run_fields_are_told, crate::proofs::NamingLaws::registers_are_told))]
pub fn fields_are_told()
    ensures run_lines { RunFieldsAreTold }
    ensures registers { RegistersAreTold }
{}

/// Laws and no code: messages that are equal before their ciphertexts are of one name, and so have one key
/// and one counter block for each half.
pub fn heads_tell_their_names()
    ensures lines { LineHeadsTell }
    ensures registers { RegisterHeadsTell }
{}

/// Laws and no code: under one key no counter block serves two names, nor two halves of a line or of an
/// envelope.
#[tactic(auto, using(crate::proofs::CounterLaws::line_counters_serve_one, crate::proofs::CounterLaws::register_counters_serve_one, crate::proofs::CounterLaws::envelope_counters_serve_one))]
pub fn counter_blocks_serve_one_name()
    ensures lines { LineCountersServeOne }
    ensures registers { RegisterCountersServeOne }
    ensures envelopes { EnvelopeCountersServeOne }
{}
