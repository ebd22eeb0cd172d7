//! Run files and scripts: what a run is made of, and what its kernel does.
//!
//! Each is read by its whole grammar, and a text that is off it is answered by its first bad line.
#![tactic(auto)]

mod progress;
mod run_file;
mod run_line;
mod run_reader;
mod script;
mod script_line;
mod words;

pub use run_file::{GuestFile, GuestFileList, KernelLine, OwnerFile, OwnerFileList, RunFile};
pub use run_reader::read_run;
pub use script::{Script, read_script};
pub use script_line::{ScriptLine, ScriptLineList};
