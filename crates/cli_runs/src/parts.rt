use crate::guest_image::GuestImageList;
use crate::kernel_file::KernelFile;
use xom_owners::OwnerList;
use xom_script::RunFile;

/// All that a run is made of.
#[derive(Drop)]
pub struct Parts {
    /// The run file.
    pub file: RunFile,
    /// Its owners with their images.
    pub owners: OwnerList,
    /// The images of its guests, in the order in which they stand in RAM.
    pub guests: GuestImageList,
    /// Its kernel.
    pub kernel: KernelFile,
}
