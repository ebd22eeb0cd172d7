ghost use Rattle.xom_versions.specs.Chip.{ChipStands, chip};
ghost use Rattle.xom_model.specs.Laws.{ChipKeepsTheLaw, EventsKeep, FaultsAreOwn, HoldsAtStart, HonestyIsJudged, RefusalsChangeNothing};
ghost use Rattle.xom_model.specs.Appends.{EventsAppend};
ghost use Rattle.xom_model.specs.Counts.{CountedAtStart, EventsKeepCounts};
ghost use Rattle.xom_model.specs.Others.{EventsLeaveOthers};
ghost use Rattle.xom_model.specs.Quiet.{EventsTrapQuietly, TrapsChangeNothing};
ghost use Rattle.xom_model.specs.Refused.{DoRefused, NullRefused};
ghost use Rattle.xom_model.specs.Stops.{EventsKeepStops, InstallsAreTold, StopsHoldAtStart};
ghost use Rattle.xom_model.specs.Sequence.{RunsAreEvents, RunsHold};
ghost use Rattle.xom_model.specs.PageMaps.{GuestsKeepPages, OperationsKeepPages};
ghost use Rattle.xom_model.specs.Pads.{NoPadTwice, PadsHold};
ghost use Rattle.xom_model.specs.SavedBack.{SavedComesBack};

/// While the journal is honest, at every moment between events each installed guest's recorded
/// steps are its program's run alone, and what the processor holds of a live guest, in cells, cache
/// and sealed lines, is the state of that run: so it is at power-on, and each event that may come
/// keeps it.
pub fn guests_run_alone()
    ensures at_start { HoldsAtStart chip ChipStands }
    ensures kept { EventsKeep chip ChipStands }
{}

/// A journal is honest exactly where the judge's searches find neither a forgery nor a collision.
pub fn honesty_is_judged()
    ensures { HonestyIsJudged }
{}

/// The same over whole runs: whatever events come one after another from power-on, where the journal
/// that they made is honest, what the machine keeps holds, and no name of a Seal was used twice.
pub fn whole_runs_hold()
    ensures { RunsHold chip ChipStands }
{}

/// A run under a kernel that tells its turns is events that may come, one after another, so that all
/// laws over events hold of it. The kernel of the law remembers each view that it had.
pub fn runs_are_events()
    ensures { RunsAreEvents }
{}

/// Versions on chip keep the law that the kept fact rests on.
pub fn chip_keeps_the_law()
    ensures { ChipKeepsTheLaw }
{}

/// An operation with a status other than 0 and 8 leaves the core as it was.
pub fn refusals_change_nothing()
    ensures { RefusalsChangeNothing }
{}

/// A guest leaves with an own fault only where its program, run alone, gives that fault after the
/// same steps.
pub fn faults_are_the_programs_own()
    ensures { FaultsAreOwn chip ChipStands }
{}

/// What the machine keeps says that no pad serves twice: two Seals of one journal that name the
/// same line and version, or the same register and epoch, of one install are equal. So the AES
/// result of a counter block under a key of an install masks one text.
pub fn no_pad_serves_twice()
    ensures names { NoPadTwice ChipStands }
    ensures pads { PadsHold ChipStands }
{}

/// A register that was saved comes back: Restore from the same place under the same epoch is done,
/// and all cells are then as before the Save.
pub fn a_saved_register_comes_back()
    ensures { SavedComesBack ChipStands }
{}

/// A slot that is live after an event of a guest, or after an operation other than Install, Map and
/// Unmap, was live before and has the same pages in the same frames.
pub fn page_maps_stay()
    ensures guests { GuestsKeepPages }
    ensures operations { OperationsKeepPages }
{}

/// Whoever the owners are, and honest or not: after a Stop of an install there is no further step or
/// trap of it, nor is a line or register of it sealed or accepted; a slot that is stopped has its
/// Stop, and one that ended its exit step.
pub fn stops_are_last()
    ensures at_start { StopsHoldAtStart }
    ensures kept { EventsKeepStops }
{}

/// Which install a message names is read from its fields.
pub fn installs_are_told()
    ensures { InstallsAreTold }
{}

/// Epochs and install numbers are at most the number of events.
pub fn counts_are_low()
    ensures at_start { CountedAtStart }
    ensures kept { EventsKeepCounts }
{}

/// A slot that an event neither runs nor names, and none of whose lines it writes back, keeps its
/// session, its version store, its pages and its Seals.
pub fn other_slots_stay()
    ensures { EventsLeaveOthers }
{}

/// A trap without retirement changes no cell and no private byte of its guest.
pub fn traps_change_nothing()
    ensures guest { TrapsChangeNothing }
    ensures event { EventsTrapQuietly }
{}

/// An operation that is refused leaves the whole record but for its status and the count of events
/// and, where a null instruction asked for it, the null pair.
pub fn refusals_leave_the_record()
    ensures script { DoRefused }
    ensures code { NullRefused }
{}

/// Each event only appends to the journal, and what it installs has a number above the last one.
pub fn journals_only_grow()
    ensures { EventsAppend }
{}
