ghost use Rattle.std.specs.Prelude.{◌≡◌, None, string_bytes};
ghost use Rattle.xom_io.specs.Answers.{Gets, Puts};
ghost use Rattle.xom_io.specs.Counts.{count_after_fault};

use crate::{FileFault, Files};
use std::alloc::Global;
use std::io::{ErrorKind, Read};
use std::marker::Model;
use std::rt::Files as SystemFiles;
use std::{fs, io};
use xom_base::ByteList;

/// The files of the system, by their paths. They tell nothing of what they hold.
#[derive(Drop)]
pub struct DiskFiles<R: SystemFiles + Drop> {
    rt: R,
    alloc: Global,
    reads: u64,
    writes: u64,
}

impl<R: SystemFiles + Drop> Model for DiskFiles<R> {
    ghost use Rattle.xom_io.specs.Counts.{Counts};

    ghost Value = { Counts };

    ghost view = { λ f. record { reads = f.reads; writes = f.writes } };
}

impl<R: SystemFiles + Drop> DiskFiles<R> {
    /// The files of this runtime. No fault is counted yet.
    pub fn new(alloc: Global, rt: R) -> DiskFiles<R>
        ensures { result ≡ record { reads = 0; writes = 0 } }
    {
        DiskFiles {
            rt,
            alloc,
            reads: 0,
            writes: 0,
        }
    }
}

impl<R: SystemFiles + Drop> Files for DiskFiles<R> {
    ghost held = { λ _. None };

    ghost reads = { λ f. f.reads };

    ghost writes = { λ f. f.writes };

    // A file that is too long is read up to one byte past the limit. What the system refuses for
    // want of memory is answered as that.
    fn get(&mut self, name: &String, limit: u64) -> Result<ByteList, FileFault>
        ensures answer { Gets None (string_bytes name.now) limit self.old.reads self.new.reads result }
        ensures raised { result ≡ Err FileFault.Failed → self.new.reads ≡ count_after_fault self.old.reads }
        ensures other_count { self.new.writes ≡ self.old.writes }
    {
        let bytes = match read_within(self.alloc, &self.rt, name.as_str(), limit) {
            Ok(bytes) => bytes,
            Err(e) if e.kind() == ErrorKind::OutOfMemory => return Err(FileFault::NoMemory),
            Err(_) => {
                self.reads = self.reads.saturating_add(1);
                return Err(FileFault::Failed);
            }
        };
        if bytes.len() as u64 > limit {
            return Err(FileFault::TooLong);
        }
        Ok(ByteList::from_vec(bytes))
    }

    // A file is created where there is none, and emptied before it is written.
    fn put(&mut self, name: &String, bytes: &ByteList) -> Result<(), FileFault>
        ensures answer { Puts None None (string_bytes name.now) bytes.now self.old.writes self.new.writes result }
        ensures raised { result ≡ Err FileFault.Failed → self.new.writes ≡ count_after_fault self.old.writes }
        ensures other_count { self.new.reads ≡ self.old.reads }
    {
        match fs::write(&self.rt, name.as_str(), bytes.as_slice()) {
            Ok(()) => Ok(()),
            Err(_) => {
                self.writes = self.writes.saturating_add(1);
                Err(FileFault::Failed)
            }
        }
    }
}

// All the bytes of a file, but no more of them than one past the limit.
fn read_within<R: SystemFiles>(
    alloc: Global,
    rt: &R,
    path: &str,
    limit: u64,
) -> io::Result<Vec<u8>> {
    let file = fs::File::open(rt, path)?;
    let mut bytes = Vec::new(alloc);
    file.take(limit.saturating_add(1)).read_to_end(&mut bytes)?;
    Ok(bytes)
}
