//! The metadata files of a mirror's two images: how a server finds them, what it does then, and how it leaves them.
#![tactic(auto)]

mod boot;
mod change;
mod counted_file;
mod end;
mod judging;
mod metadata_lock;
mod opening;
mod search;

pub use boot::boot_id;
pub use change::{image_state, is_unchanged};
pub use counted_file::{CountedFile, ENTRIES_AT, MARKS_AT, WriteCounts};
pub use end::{close_local, close_peer, serving_identifiers};
pub use judging::{LastEnd, Start, WholeCopy, judge};
pub use metadata::{
    AnyBytes, BootId, CleanEnd, Header, Identifiers, Metadata, MetadataFault, OpeningBytes,
};
pub use metadata_lock::{MetadataFileFault, open_locked};
pub use opening::{OpeningIdentifiers, UNKNOWN, opening_identifiers};
pub use search::{Found, FoundFile, ImageFile, Saved, create_anew, find};
