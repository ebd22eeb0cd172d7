ghost use Rattle.mips_plain.specs.Follows.{FollowersRun, OthersDepart, RunsFollow};

/// A law and no code: a list of steps follows exactly where the plain machine does those steps,
/// and departs at the first that it doesn't do.
#[tactic(auto, using(crate::proofs::Runs::runs_follow, crate::proofs::Runs::followers_run, crate::proofs::Runs::others_depart))]
pub fn verdict_is_a_run()
    ensures runs { RunsFollow }
    ensures followers { FollowersRun }
    ensures others { OthersDepart }
{}
