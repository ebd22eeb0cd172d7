ghost use Rattle.xom_seen.specs.NoWayOut.{NoWayOut, SameSight, StopsSettle, StoresStay};
ghost use Rattle.xom_seen.specs.SealOwners.{EventsTellOwners};

/// What is seen of the machine after an event is a function of what was seen before it, the event,
/// its bytes and what it emits: so two machines that look the same, and emit the same, look the
/// same afterwards.
#[tactic(auto, using(crate::proofs::Next::no_way_out, crate::proofs::Next::same_sight, crate::proofs::Next::events_tell_owners))]
pub fn nothing_else_is_seen()
    ensures next { NoWayOut }
    ensures same { SameSight }

    // What is told of a Seal or a Stop is true of it: whose line or register, and which.
    ensures owners { EventsTellOwners }
{}

/// All that this needs of a machine is true of every one, whether its journal is honest or not.
#[tactic(auto, using(crate::proofs::Settled::stops_settle, crate::proofs::Settled::stores_stay))]
pub fn every_machine_is_settled()
    ensures settled { StopsSettle }
    ensures stores { StoresStay }
{}
