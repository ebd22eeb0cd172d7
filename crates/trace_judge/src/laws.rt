ghost use Rattle.trace_judge.specs.Laws.{RunsAreFollowed};

/// A law and no code: where each installed guest did what its owner's program does alone, each line
/// of the report says that it follows.
pub fn runs_are_followed()
    ensures { RunsAreFollowed }
{}
