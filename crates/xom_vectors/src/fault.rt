//! Why a vector gives no result.

use std::alloc::{AllocError, AllocFailed};
use xom_base::NoMemory;
use xom_image::ImageFault;

/// What a vector gives: the text of its result.
pub type Answer = Result<String, Fault>;

/// Why a vector gives no result.
#[derive(Clone, Copy)]
pub enum Fault {
    /// A word is missing or isn't of its form, or the library can't be asked this.
    Unreadable,
    /// Want of memory.
    NoMemory,
}

impl From<NoMemory> for Fault {
    fn from(_: NoMemory) -> Fault {
        Fault::NoMemory
    }
}

impl From<AllocError> for Fault {
    fn from(_: AllocError) -> Fault {
        Fault::NoMemory
    }
}

impl<T: Drop> From<AllocFailed<T>> for Fault {
    fn from(_: AllocFailed<T>) -> Fault {
        Fault::NoMemory
    }
}

impl From<ImageFault> for Fault {
    fn from(fault: ImageFault) -> Fault {
        match fault {
            ImageFault::Bad(_) => Fault::Unreadable,
            ImageFault::NoMemory => Fault::NoMemory,
        }
    }
}
