//! Files and sinks, in memory and of the system.

use crate::inputs::repeated;
use std::alloc::{AllocError, Global};
use std::cell::Cell;
use std::fmt::Display;
use std::fs::Permissions;
use std::os::unix::fs::PermissionsExt;
use std::test::Fail;
use std::{fs, io};
use xom_base::ByteList;
use xom_io::{DiskFiles, FileFault, Files, MemFiles, MemSink, Sink, SinkFault, StdSink, put_all};

fn list(alloc: Global, bytes: &[u8]) -> Result<ByteList, AllocError> {
    Ok(ByteList::from_vec(Vec::from_slice(alloc, bytes)?))
}

fn name(alloc: Global, text: &str) -> Result<String, AllocError> {
    String::from_str(alloc, text)
}

/// What the name holds after these bytes were put there.
fn read_back<F: Files>(
    files: &mut F,
    name: &String,
    bytes: &ByteList,
) -> Result<ByteList, FileFault> {
    files.put(name, bytes)?;
    files.get(name, bytes.len() as u64)
}

#[test]
fn files_hold_what_is_put(rt: HostRuntime) -> Result<(), Fail> {
    let file = name(rt.alloc(), "xom_calls_file")?;
    // 200,004 bytes, more than one read of the system takes
    let long = ByteList::from_vec(repeated(rt.alloc(), b"seven. ", 28_572)?);
    let short = list(rt.alloc(), b"text")?;
    let mut memory = MemFiles::new(rt.alloc());
    memory.hold(&file, &short)?;
    let mut disk = DiskFiles::new(rt.alloc(), &rt);
    for bytes in [&long, &short] {
        let kept = read_back(&mut memory, &file, bytes)?;
        assert!(rt; kept.as_slice() == bytes.as_slice());
        let kept = read_back(&mut disk, &file, bytes)?;
        assert!(rt; kept.as_slice() == bytes.as_slice());
    }
    fs::remove_file(&rt, file.as_str())?;
    assert!(rt; memory.held(&file) == Some(short.as_slice()));
    Ok(())
}

#[test]
fn files_of_the_system_are_too_long_or_fail(rt: HostRuntime) -> Result<(), Fail> {
    let file = name(rt.alloc(), "xom_calls_another_file")?;
    let text = list(rt.alloc(), b"text")?;
    let mut disk = DiskFiles::new(rt.alloc(), &rt);
    disk.put(&file, &text)?;
    let long = disk.get(&file, 3).err();
    fs::remove_file(&rt, file.as_str())?;
    let gone = disk.get(&file, 3).err();
    let nowhere = disk.put(&name(rt.alloc(), "xom_calls_no_folder/file")?, &text);
    assert!(rt; long == Some(FileFault::TooLong));
    assert!(rt; gone == Some(FileFault::Failed));
    assert!(rt; nowhere == Err(FileFault::Failed));
    Ok(())
}

/// What is to be answered where the system allows a call or refuses it.
fn fault(is_allowed: bool) -> Option<FileFault> {
    if is_allowed {
        None
    } else {
        Some(FileFault::Failed)
    }
}

// The system refuses root nothing, so what it answers is asked of it.
#[test]
fn a_file_without_permission_fails(rt: HostRuntime) -> Result<(), Fail> {
    let file = name(rt.alloc(), "xom_calls_closed_file")?;
    let text = list(rt.alloc(), b"text")?;
    let mut disk = DiskFiles::new(rt.alloc(), &rt);
    disk.put(&file, &text)?;
    fs::set_permissions(&rt, file.as_str(), Permissions::from_mode(0))?;
    let is_read = fs::read(&rt, file.as_str()).is_ok();
    let is_written = fs::write(&rt, file.as_str(), "text").is_ok();
    let read = disk.get(&file, 4).err();
    let written = disk.put(&file, &text).err();
    fs::remove_file(&rt, file.as_str())?;
    assert!(rt; read == fault(is_read) && written == fault(is_written));
    Ok(())
}

#[test]
fn sinks_take_what_is_put(rt: HostRuntime) -> Result<(), Fail> {
    let text = repeated(rt.alloc(), b"seven. ", 150_000)?;
    let mut sink = MemSink::new(rt.alloc());
    sink.fail(9)?;
    sink.reserve(3)?;
    put_all(&mut sink, &text)?;
    assert!(rt; sink.bytes() == text.as_slice());
    put_all(&mut StdSink::new(&rt), b"a line\n")?;
    Ok(())
}

/// A device that is cut off at its first write, takes two bytes at its second and nothing from then on.
#[derive(Drop)]
struct Worn {
    writes: Cell<u8>,
}

impl Print for Worn {
    fn print<D: Display + Drop>(&self, _value: D) -> io::Result<()> {
        Ok(())
    }

    fn println<D: Display + Drop>(&self, _value: D) -> io::Result<()> {
        Ok(())
    }

    fn write_all(&self, _bytes: &[u8]) -> io::Result<()> {
        Ok(())
    }

    fn write_some(&self, bytes: &[u8]) -> io::Result<usize> {
        let before = self.writes.get();
        self.writes.set(before.saturating_add(1));
        match before {
            0 => Err(io::Error::from(io::ErrorKind::Interrupted)),
            1 => Ok(bytes.len().min(2)),
            2 => Ok(0),
            _ => Err(io::Error::from(io::ErrorKind::StorageFull)),
        }
    }
}

#[test]
fn a_device_that_takes_nothing_is_a_fault(rt: HostRuntime) {
    let mut sink = StdSink::new(Worn {
        writes: Cell::new(0),
    });
    assert!(rt; sink.put(b"abc") == Ok(2));
    assert!(rt; sink.put(b"c") == Err(SinkFault::Failed));
    assert!(rt; put_all(&mut sink, b"c") == Err(SinkFault::Failed));
    let mut sink = StdSink::new(Worn {
        writes: Cell::new(0),
    });
    assert!(rt; put_all(&mut sink, b"abc") == Err(SinkFault::Failed));
}
