//! The nodes of a session under their locks, each with the metadata of its disk on stable storage: whatever a kill or a crash leaves
//! of the file at any moment is what the next session has to open from.
//!
//! A step of a kept node is the step of the node, with the file written before anything of it is seen from outside: an extent is
//! entered before a write to it is accepted, all of them before a full copy begins, and identifiers that have turned are saved
//! before the step ends. Extents leave again after both disks were synced (`prepare_leaving`, `leave_prepared`).
#![tactic(auto)]

mod keeping;
mod kept_primary;
mod kept_secondary;
mod known;
mod leaving;
mod next_opening;
mod preparing;
mod primary_turn;
mod recording;
mod secondary_turn;

pub use kept_primary::KeptPrimary;
pub use kept_secondary::KeptSecondary;
pub use known::known_marks;
use metadata::{AnyBytes, MetadataFile};
pub use next_opening::next_opening_of_files;
pub use preparing::STAYING_EXTENTS;
pub use recording::record_marks;
use std::fs::File;

/// The file of a node that has no metadata: there is none of this type then.
pub type NoFile = MetadataFile<File, AnyBytes>;
