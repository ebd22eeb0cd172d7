ghost use Rattle.plain_run.specs.Laws.{OneRun, RunsAlone};

/// A law and no code: what `run_alone` prints is the run of the image's program alone, which there is
/// just one of. Its steps are those of the plain machine, at most as many as were asked for; they
/// received the given values from the first on; and it stopped for the reason that it says.
pub fn run_is_alone()
    ensures alone { RunsAlone }
    ensures one { OneRun }
{}
