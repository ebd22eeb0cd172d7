//! What a book calls.

use std::alloc::Global;
use xom_io::{MemFiles, MemSink};

/// A program that books of cases are played over.
pub trait Program {
    /// Carries out the words over these files and this sink, and answers the status.
    fn call(
        &self,
        alloc: Global,
        words: &Vec<String>,
        files: &mut MemFiles,
        out: &mut MemSink,
    ) -> u8;
}
