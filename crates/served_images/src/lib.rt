//! The images of a server: what it begins with, what its sessions start from and leave, a dry run, and what it says at its end.
#![tactic(auto)]

mod beginning;
mod dry_start;
mod end;
mod fault;
mod first_identifiers;
mod image_files;
mod images;
mod seen_files;
mod session_end;
mod starts;
mod totals;

pub use beginning::{Beginning, FreshNumbers, ImagesMetadata, begin, fresh_numbers};
pub use dry_start::dry_run;
pub use end::End;
pub use fault::{ServeFault, fault_of_comparison};
pub use image_files::{FoundFiles, close_metadata, find_files};
pub use images::{
    blocks_of, changed_images, check_size, images_of, lock_both, open_both, torn_images,
};
pub use session_end::{SessionEnd, settle_session};
pub use starts::{FirstWords, first_start, settings_of};
pub use totals::Totals;
