ghost use Rattle.xom_image.specs.declared.fault.ImageFault.TheVariants as fault;
ghost use Rattle.std.specs.Prelude.{◌≡◌};

use std::alloc::AllocError;
use thiserror::Error;

/// Why an image file gives no image.
#[derive(Clone, Copy, Debug, PartialEq, Eq, Error)]
pub enum ImageFault {
    /// The file breaks its format at this byte, counted from 0, and at none before it.
    #[error("byte {0}: bad")]
    Bad(u64),
    /// There was no memory for the image. A bad file never answers this.
    #[error("out of memory")]
    NoMemory,
}

impl From<AllocError> for ImageFault {
    ghost from_gives = { λ _ e. e ≡ fault.NoMemory };

    fn from(_: AllocError) -> ImageFault {
        ImageFault::NoMemory
    }
}
