//! The machine in definitions: its record, its events, and what it keeps of every guest.
//!
//! There is no code here but laws: functions with no parameters, whose contracts are facts about
//! the definitions.
#![tactic(auto)]

mod laws;
pub mod outcome;
pub mod reach;

pub use laws::{
    a_saved_register_comes_back, chip_keeps_the_law, counts_are_low, faults_are_the_programs_own,
    guests_run_alone, honesty_is_judged, installs_are_told, journals_only_grow,
    no_pad_serves_twice, other_slots_stay, page_maps_stay, refusals_change_nothing,
    refusals_leave_the_record, runs_are_events, stops_are_last, traps_change_nothing,
    whole_runs_hold,
};
