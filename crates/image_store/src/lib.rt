//! A mirror's images: their locks, their disks, and what each of the two has, by name.
#![tactic(auto)]

mod image_lock;
mod length;
mod open_fault;
mod opening;
mod per_disk;
mod sync_handle;

pub use image_lock::ImageLock;
pub use length::check_length;
pub use open_fault::OpenFault;
pub use opening::open_image;
pub use per_disk::PerDisk;
pub use sync_handle::{Disk, SyncHandle, SyncedAll};
