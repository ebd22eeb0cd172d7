//! The commands of a run: `trace` makes the run of a run file, prints its console and the judgement of its
//! journal, and writes the journal where a file is named; `run` makes the same run and prints its console
//! alone.
#![tactic(auto)]

mod made;
pub mod run;
pub mod trace;
