//! What the commands on runs read: a run file, the images of its owners, its guests with their inputs,
//! and its kernel, in the order of its lines. The first fault is refused, and what is read can be run.
#![tactic(auto)]

mod guest_files;
mod guest_image;
mod kernel_file;
mod kernel_files;
mod owner_images;
mod parts;
mod reading;
mod run_files;

pub use guest_image::{FIRST_FRAME, GuestImage, GuestImageList, frames_of};
pub use kernel_file::KernelFile;
pub use owner_images::owners;
pub use parts::Parts;
pub use reading::read_parts;
pub use run_files::run_file;
